// The report on a job as text. It refuses nothing: a refused job has a report too.
ghost use Rattle.std.specs.Prelude.{◌≡◌};
ghost use Rattle.buffer.specs.Put.{Put};
ghost use Rattle.report_text.specs.Report.{report_text};
ghost use Rattle.capi.specs.Structs.{encode_report};

use report_text::ROOM;

#[repr(C)]
#[derive(Clone, Copy, Debug, PartialEq, Eq)]
pub struct ZilqodurReport {
    pub refusal: u32,
    pub place: usize,
    pub length: usize,
}

#[unsafe(no_mangle)]
pub extern "C" fn zilqodur_report(bytes: &[u8], out: &mut [u8; ROOM]) -> ZilqodurReport
    ensures value { result ≡ encode_report (report_text bytes.now) }
    ensures put { Put out.old 0 (report_text bytes.now) out.new result.length }
{
    let length = report_text::report_text(bytes, out);
    ZilqodurReport {
        refusal: 0,
        place: 0,
        length,
    }
}
