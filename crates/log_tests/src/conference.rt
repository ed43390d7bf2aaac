//! The conference example.

pub(crate) const PROJECT: &str = "onprom 1
table paper \"paper.csv\"
column paper id int
column paper title text
column paper author int
column paper submitted time
key paper (id)
table review \"review.csv\" offset \"+01:00\"
column review id text
column review paper int
column review reviewer int
column review done time
key review (id)
table person \"person.csv\"
column person id int
column person name text
key person (id)
class Paper
class Person
class Review
disjoint Paper Person
assoc writes Person 1..* -> Paper *
assoc about Review * -> Paper 1
assoc doneBy Review * -> Person 1
attr Paper title text 1
attr Paper submittedAt time 0..1
attr Review doneAt time 0..1
attr Review reviewerName text *
attr Person name text 1
map m1 from paper p then Paper(iri \"http://conf.org/paper/{p.id}\"), title(iri \"http://conf.org/paper/{p.id}\", p.title)
map m2 from paper p then submittedAt(iri \"http://conf.org/paper/{p.id}\", p.submitted)
map m3 from paper p then writes(iri \"http://conf.org/person/{p.author}\", iri \"http://conf.org/paper/{p.id}\")
map m4 from person x then name(iri \"http://conf.org/person/{x.id}\", x.name)
map m5 from review r then about(iri \"http://conf.org/review/{r.id}\", iri \"http://conf.org/paper/{r.paper}\"), doneBy(iri \"http://conf.org/review/{r.id}\", iri \"http://conf.org/person/{r.reviewer}\")
map m6 from review r then doneAt(iri \"http://conf.org/review/{r.id}\", r.done)
map m7 from review r, person q where r.reviewer = q.id then reviewerName(iri \"http://conf.org/review/{r.id}\", q.name)
case c where Paper(c)
casename (c, n) where title(c, n)
event submit x where Paper(x)
cases submit (x, x) where Paper(x)
set submit \"concept:name\" mandatory is text \"submit paper\"
set submit \"time:timestamp\" mandatory (x, t) where submittedAt(x, t)
set submit \"org:resource\" single (x, n) where writes(a, x), name(a, n)
event review x where Review(x)
cases review (x, c) where about(x, c)
set review \"concept:name\" mandatory is text \"review paper\"
set review \"time:timestamp\" mandatory (x, t) where doneAt(x, t)
set review \"org:resource\" single (x, n) where reviewerName(x, n)
set review \"lifecycle:transition\" single is text \"complete\"
query reviews (x) where Review(x)
";

pub(crate) const PAPER: &str = "id,title,author,submitted
1,Chase & Match,10,2024-03-01T09:00:00Z
2,\"Logs, Events\",11,2024-03-02 08:30
";

pub(crate) const PERSON: &str = "id,name
10,Ada
11,Bo
12,Cy
";

pub(crate) const REVIEW: &str = "id,paper,reviewer,done
r1,1,11,2024-03-10T12:00:00+01:00
r2,1,12,
r3,2,10,2024-03-11
";

pub(crate) const LOG: &str = "<?xml version=\"1.0\" encoding=\"UTF-8\"?>
<log xes.version=\"1849.2016\" xes.features=\"\">
  <extension name=\"Concept\" prefix=\"concept\" uri=\"http://www.xes-standard.org/concept.xesext\"/>
  <extension name=\"Time\" prefix=\"time\" uri=\"http://www.xes-standard.org/time.xesext\"/>
  <extension name=\"Organizational\" prefix=\"org\" uri=\"http://www.xes-standard.org/org.xesext\"/>
  <extension name=\"Lifecycle\" prefix=\"lifecycle\" uri=\"http://www.xes-standard.org/lifecycle.xesext\"/>
  <trace>
    <string key=\"object\" value=\"http://conf.org/paper/1\"/>
    <string key=\"concept:name\" value=\"Chase &amp; Match\"/>
    <event>
      <string key=\"object\" value=\"http://conf.org/paper/1\"/>
      <string key=\"concept:name\" value=\"submit paper\"/>
      <date key=\"time:timestamp\" value=\"2024-03-01T09:00:00.000+00:00\"/>
      <string key=\"org:resource\" value=\"Ada\"/>
    </event>
    <event>
      <string key=\"object\" value=\"http://conf.org/review/r1\"/>
      <string key=\"concept:name\" value=\"review paper\"/>
      <date key=\"time:timestamp\" value=\"2024-03-10T11:00:00.000+00:00\"/>
      <string key=\"org:resource\" value=\"Bo\"/>
      <string key=\"lifecycle:transition\" value=\"complete\"/>
    </event>
  </trace>
  <trace>
    <string key=\"object\" value=\"http://conf.org/paper/2\"/>
    <string key=\"concept:name\" value=\"Logs, Events\"/>
    <event>
      <string key=\"object\" value=\"http://conf.org/paper/2\"/>
      <string key=\"concept:name\" value=\"submit paper\"/>
      <date key=\"time:timestamp\" value=\"2024-03-02T08:30:00.000+00:00\"/>
      <string key=\"org:resource\" value=\"Bo\"/>
    </event>
    <event>
      <string key=\"object\" value=\"http://conf.org/review/r3\"/>
      <string key=\"concept:name\" value=\"review paper\"/>
      <date key=\"time:timestamp\" value=\"2024-03-10T23:00:00.000+00:00\"/>
      <string key=\"org:resource\" value=\"Ada\"/>
      <string key=\"lifecycle:transition\" value=\"complete\"/>
    </event>
  </trace>
</log>
";

// What stands in front of the traces of each log.
pub(crate) const NO_TRACES: &str = "<?xml version=\"1.0\" encoding=\"UTF-8\"?>
<log xes.version=\"1849.2016\" xes.features=\"\">
  <extension name=\"Concept\" prefix=\"concept\" uri=\"http://www.xes-standard.org/concept.xesext\"/>
  <extension name=\"Time\" prefix=\"time\" uri=\"http://www.xes-standard.org/time.xesext\"/>
  <extension name=\"Organizational\" prefix=\"org\" uri=\"http://www.xes-standard.org/org.xesext\"/>
  <extension name=\"Lifecycle\" prefix=\"lifecycle\" uri=\"http://www.xes-standard.org/lifecycle.xesext\"/>
";

pub(crate) const REPORT: &str = "traces 2 events 4 left out 1
left out: review <http://conf.org/review/r2>: none time:timestamp";
