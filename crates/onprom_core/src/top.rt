//! The top call.
ghost use Rattle.std.specs.Prelude.{◌≡◌, ◌≢◌, false, true, IfSome, IsTrue};
ghost use Rattle.std.specs.Io.KnownBytes.{Appends, Keeps};
ghost use Rattle.outside.specs.Counts.{Rose};
ghost use Rattle.onprom_core.specs.Causes.{IsWhole};
ghost use Rattle.onprom_core.specs.Commands.{is_make};
ghost use Rattle.onprom_core.specs.Delivery.{EndsAs, EndsCut, EndsReporting, EndsEarly, ReportsFault, NamesFile, KeepsOut, Completes, AnswersNoCommand};
ghost use Rattle.onprom_core.specs.Headline.{Answers, Checks, ChecksSoundly, Compares, ComparesSoundly, Explains, ExplainsSoundly, Extracts, ExtractsSoundly, Lints, LintsSoundly, Makes, Rewrites, Verifies, VerifiesSoundly};
ghost use Rattle.onprom_core.specs.Lines.{absent_line, fault_line, usage_line};
ghost use Rattle.onprom_core.specs.Walk.{walk, IsNoCommand};

use crate::Status;
use crate::deciding::decide;
use crate::deliver::deliver;
use outside::{Shelf, Sink, Words};
use std::alloc::{AllocError, Global};

/// Runs the command that the words name: it reads from `shelf`, writes the text to `out`, and then its
/// line or its report to `report`.
///
/// The clauses under `IfSome (S.held ..)` speak of a shelf that tells its files; those that follow hold
/// of every shelf.
pub fn run<S: Shelf, O: Sink, R: Sink>(
    alloc: Global,
    words: &Words,
    shelf: &mut S,
    out: &mut O,
    report: &mut R,
) -> Status
    // The promise of `extract`: the one log of an accepted project, or what contradicts it.
    ensures headline { IfSome (S.held shelf.old) (λ files. Extracts words.now files
        (S.faults shelf.old) (S.faults shelf.new) (O.faults out.old) (O.faults out.new) (R.faults report.old) (R.faults report.new)
        (O.written out.old) (O.written out.new) (R.written report.old) (R.written report.new) result) }
    // An extraction that is done wrote the one log of an accepted project that nothing contradicts.
    ensures sound { IfSome (S.held shelf.old) (λ files. ExtractsSoundly words.now files
        (O.written out.old) (O.written out.new) (R.written report.old) (R.written report.new) result) }
    // A check that is done told of a project that is read and that nothing contradicts.
    ensures checks_soundly { IfSome (S.held shelf.old) (λ files. ChecksSoundly words.now files
        (O.written out.old) (O.written out.new) (R.written report.old) (R.written report.new) result) }
    // A verification that is done told of derivations that are read and accepted.
    ensures verifies_soundly { IfSome (S.held shelf.old) (λ files. VerifiesSoundly words.now files
        (O.written out.old) (O.written out.new) (R.written report.old) (R.written report.new) result) }
    // The promise of `check`: what contradicts a project that is read.
    ensures checks { IfSome (S.held shelf.old) (λ files. Checks words.now files
        (S.faults shelf.old) (S.faults shelf.new) (O.faults out.old) (O.faults out.new) (R.faults report.old) (R.faults report.new)
        (O.written out.old) (O.written out.new) (R.written report.old) (R.written report.new) result) }
    // The promise of `verify`: whether derivations that are read are accepted.
    ensures verifies { IfSome (S.held shelf.old) (λ files. Verifies words.now files
        (S.faults shelf.old) (S.faults shelf.new) (O.faults out.old) (O.faults out.new) (R.faults report.old) (R.faults report.new)
        (O.written out.old) (O.written out.new) (R.written report.old) (R.written report.new) result) }
    // The promise of `answer`: the certain answers of a query of a project that is read.
    ensures answers { IfSome (S.held shelf.old) (λ files. Answers words.now files
        (S.faults shelf.old) (S.faults shelf.new) (O.faults out.old) (O.faults out.new) (R.faults report.old) (R.faults report.new)
        (O.written out.old) (O.written out.new) (R.written report.old) (R.written report.new) result) }
    // The promise of `rewrite`: queries that give the certain answers over any known facts.
    ensures rewrites { IfSome (S.held shelf.old) (λ files. Rewrites words.now files
        (S.faults shelf.old) (S.faults shelf.new) (O.faults out.old) (O.faults out.new) (R.faults report.old) (R.faults report.new)
        (O.written out.old) (O.written out.new) (R.written report.old) (R.written report.new) result) }
    // The promise of `why`: why the certain answer of a number is one, or that there are fewer.
    ensures explains { IfSome (S.held shelf.old) (λ files. Explains words.now files
        (S.faults shelf.old) (S.faults shelf.new) (O.faults out.old) (O.faults out.new) (R.faults report.old) (R.faults report.new)
        (O.written out.old) (O.written out.new) (R.written report.old) (R.written report.new) result) }
    // A `why` that is done explained the certain answer of the number.
    ensures explains_soundly { IfSome (S.held shelf.old) (λ files. ExplainsSoundly words.now files
        (O.written out.old) (O.written out.new) (R.written report.old) (R.written report.new) result) }
    // The promise of `lint`: what is void in the model of a project that is read.
    ensures lints { IfSome (S.held shelf.old) (λ files. Lints words.now files
        (S.faults shelf.old) (S.faults shelf.new) (O.faults out.old) (O.faults out.new) (R.faults report.old) (R.faults report.new)
        (O.written out.old) (O.written out.new) (R.written report.old) (R.written report.new) result) }
    // A lint that is done wrote what is void in a project that is read.
    ensures lints_soundly { IfSome (S.held shelf.old) (λ files. LintsSoundly words.now files
        (O.written out.old) (O.written out.new) (R.written report.old) (R.written report.new) result) }
    // The promise of `contained`: whether the certain answers of one query are certain answers of another, whatever the facts.
    ensures compares { IfSome (S.held shelf.old) (λ files. Compares words.now files
        (S.faults shelf.old) (S.faults shelf.new) (O.faults out.old) (O.faults out.new) (R.faults report.old) (R.faults report.new)
        (O.written out.old) (O.written out.new) (R.written report.old) (R.written report.new) result) }
    // A comparison that is done told whether they are.
    ensures compares_soundly { IfSome (S.held shelf.old) (λ files. ComparesSoundly words.now files
        (O.written out.old) (O.written out.new) (R.written report.old) (R.written report.new) result) }
    // The promise of `make`, whatever the shelf holds or tells: the made files, and what is said of their log.
    ensures makes { Makes words.now (O.faults out.old) (O.faults out.new) (R.faults report.old) (R.faults report.new)
        (O.written out.old) (O.written out.new) (R.written report.old) (R.written report.new) result }
    // `make` leaves the shelf alone.
    ensures unused { is_make words.now ≡ true → shelf.new ≡ shelf.old }
    // Where no call failed and memory sufficed, the first end of the walk was written.
    ensures ends { IfSome (S.held shelf.old) (λ files. result ≢ Status.ReadFault → IsWhole result →
        EndsAs words.now files (O.written out.old) (O.written out.new) (R.written report.old) (R.written report.new) result) }
    // After a failed write a front of the text stands, where there is a text.
    ensures written { IfSome (S.held shelf.old) (λ files. result ≡ Status.WriteFault →
        EndsCut words.now files (S.faults shelf.old) (S.faults shelf.new) (S.absences shelf.old) (S.absences shelf.new) (O.written out.old) (O.written out.new)) }
    // A read fault names a file that the walk begins.
    ensures faulted { IfSome (S.held shelf.old) (λ files. result ≡ Status.ReadFault →
        ReportsFault (walk words.now files).begun (R.written report.old) (R.written report.new)) }
    // After a failed report the text stands whole, and a front of the report.
    ensures reporting { IfSome (S.held shelf.old) (λ files. result ≡ Status.ReportFault →
        EndsReporting words.now files (S.faults shelf.old) (S.faults shelf.new) (S.absences shelf.old) (S.absences shelf.new)
        (O.written out.old) (O.written out.new) (R.written report.old) (R.written report.new)) }
    // For want of memory nothing stands, or a front of the text, or the text and a front of the report.
    ensures early { IfSome (S.held shelf.old) (λ files. result ≡ Status.NoMemory →
        EndsEarly words.now files (S.faults shelf.old) (S.faults shelf.new) (S.absences shelf.old) (S.absences shelf.new)
        (O.written out.old) (O.written out.new) (R.written report.old) (R.written report.new)) }
    // Over sinks that want no memory, want of memory comes before anything is written.
    ensures unwritten { result ≡ Status.NoMemory → O.wants out.old ≡ false → R.wants report.old ≡ false →
        Keeps (O.written out.old) (O.written out.new) × Keeps (R.written report.old) (R.written report.new) }
    // Where the walk comes to its job and no count of faults rises, the job is done, unless memory is short.
    ensures complete { IfSome (S.held shelf.old) (λ files. Completes (walk words.now files).end
        (S.faults shelf.old) (S.faults shelf.new) (O.faults out.old) (O.faults out.new)
        (R.faults report.old) (R.faults report.new) result) }
    ensures held { S.held shelf.new ≡ S.held shelf.old }
    ensures kept { KeepsOut words.now result (O.written out.old) (O.written out.new) }
    ensures report_kept { result ≡ Status.WriteFault → Keeps (R.written report.old) (R.written report.new) }
    ensures usage { result ≡ Status.Usage → IsNoCommand words.now }
    ensures usage_line { result ≡ Status.Usage → Appends (R.written report.old) (R.written report.new) usage_line }
    ensures no_command { IsNoCommand words.now → AnswersNoCommand result }
    ensures absent { result ≡ Status.Absent → Rose (S.absences shelf.old) (S.absences shelf.new) }
    ensures absent_file { result ≡ Status.Absent → NamesFile absent_line (R.written report.old) (R.written report.new) }
    ensures read { result ≡ Status.ReadFault → Rose (S.faults shelf.old) (S.faults shelf.new) }
    ensures read_file { result ≡ Status.ReadFault → NamesFile fault_line (R.written report.old) (R.written report.new) }
    // A call that failed was the last on its shelf or sink.
    ensures shelf_last { S.faults shelf.new ≢ S.faults shelf.old → IsTrue (S.failed shelf.new) }
    ensures read_last { result ≡ Status.ReadFault → IsTrue (S.failed shelf.new) }
    ensures write_last { result ≡ Status.WriteFault → IsTrue (O.failed out.new) }
    ensures report_last { result ≡ Status.ReportFault → IsTrue (R.failed report.new) }
    // After a failed call on the shelf nothing is written to the text's sink.
    ensures unread { S.faults shelf.new ≢ S.faults shelf.old → Keeps (O.written out.old) (O.written out.new) }
    ensures write { result ≡ Status.WriteFault → Rose (O.faults out.old) (O.faults out.new) }
    ensures report { result ≡ Status.ReportFault → Rose (R.faults report.old) (R.faults report.new) }
    // No failed call goes without its status.
    ensures shelf_same { result ≢ Status.ReadFault → IsWhole result → S.faults shelf.new ≡ S.faults shelf.old }
    ensures shelf_written { result ≡ Status.WriteFault → S.faults shelf.new ≡ S.faults shelf.old }
    ensures absences_written { result ≡ Status.WriteFault → S.absences shelf.new ≡ S.absences shelf.old }
    ensures absences_same { result ≢ Status.Absent → IsWhole result → S.absences shelf.new ≡ S.absences shelf.old }
    ensures out_same { result ≢ Status.WriteFault → O.faults out.new ≡ O.faults out.old }
    ensures report_same { result ≢ Status.ReportFault → R.faults report.new ≡ R.faults report.old }
{
    match decide(alloc, words, shelf) {
        Ok(decided) => deliver(&decided, out, report),
        Err(AllocError) => Status::NoMemory,
    }
}
