//! Writing an ending.
ghost use Rattle.std.specs.Prelude.{◌≡◌, ◌≢◌, ◌⊎◌, [], Err, IsTrue, OnErr, OnOk};
ghost use Rattle.std.specs.Io.KnownBytes.{Appends};
ghost use Rattle.outside.specs.Counts.{CountsWrite, Rose};
ghost use Rattle.outside.specs.Written.{AppendsFront};
ghost use Rattle.onprom_core.specs.Causes.{IsWhole};
ghost use Rattle.onprom_core.specs.Delivery.{Delivers};
ghost use Rattle.onprom_core.specs.Shown.{shown};
ghost use Rattle.onprom_core.specs.Texts.{text_of};

use crate::Status;
use crate::deciding::Decided;
use crate::output::Text;
use outside::{Sink, Stop, write_all};
use xes_writer::write_log;

/// Writes the text and then the report.
pub(crate) fn deliver<O: Sink, R: Sink>(decided: &Decided, out: &mut O, report: &mut R) -> Status
    requires { IsWhole decided.now.status }
    ensures delivered { Delivers (shown decided.now)
        (O.written out.old) (O.written out.new) (R.written report.old) (R.written report.new) result }
    ensures nothing { text_of decided.now.text ≡ [] → result ≢ Status.WriteFault }
    ensures memory { result ≡ Status.NoMemory → IsTrue (O.wants out.old) ⊎ IsTrue (R.wants report.old) }
    ensures write_last { result ≡ Status.WriteFault → IsTrue (O.failed out.new) }
    ensures report_last { result ≡ Status.ReportFault → IsTrue (R.failed report.new) }
    ensures write { result ≡ Status.WriteFault → Rose (O.faults out.old) (O.faults out.new) }
    ensures write_same { result ≢ Status.WriteFault → O.faults out.new ≡ O.faults out.old }
    ensures report { result ≡ Status.ReportFault → Rose (R.faults report.old) (R.faults report.new) }
    ensures report_same { result ≢ Status.ReportFault → R.faults report.new ≡ R.faults report.old }
{
    match write(&decided.text, out) {
        Ok(()) => {}
        Err(Stop::Failed) => return Status::WriteFault,
        Err(Stop::NoMemory) => return Status::NoMemory,
    }
    match write_all(report, decided.line.slice()) {
        Ok(()) => decided.status,
        Err(Stop::Failed) => Status::ReportFault,
        Err(Stop::NoMemory) => Status::NoMemory,
    }
}

// Writes the text, that of a log piece by piece.
fn write<O: Sink>(text: &Text, out: &mut O) -> Result<(), Stop>
    ensures ok { OnOk result (Appends (O.written out.old) (O.written out.new) (text_of text.now)) }
    ensures err { OnErr result (AppendsFront (O.written out.old) (O.written out.new) (text_of text.now)) }
    ensures nothing { text_of text.now ≡ [] → result ≢ Err Stop.Failed }
    ensures memory { result ≡ Err Stop.NoMemory → IsTrue (O.wants out.old) }
    ensures last { result ≡ Err Stop.Failed → IsTrue (O.failed out.new) }
    ensures counts { CountsWrite (O.faults out.old) (O.faults out.new) result }
{
    match text {
        Text::Bytes(bytes) => write_all(out, bytes.items()),
        Text::Log(log) => write_log(log, out),
    }
}
