// The survey for programs in other languages. Both buffers are the caller's, and nothing is kept between calls.
#![tactic(auto)]

ghost use Rattle.std.specs.Prelude.{◌≡◌, ◌≤◌, length};
ghost use Rattle.swimlog.specs.Rooms.{page_length};
ghost use Rattle.survey.specs.Surveys.{printed};
ghost use Rattle.linked.specs.Buffers.{filled};

use survey::survey_page;

// The length of what is printed for a log, which stands in the buffer if it has room there. Else the buffer is as it was, and the caller knows how much room to bring.
#[unsafe(no_mangle)]
pub extern "C" fn kulzabeny_survey(log: &[u8], out: &mut [u8]) -> usize
    ensures answer { result ≡ length (printed log.now) }
    ensures most { result ≤ page_length }
    ensures out { out.new ≡ filled (printed log.now) out.old }
{
    let page = survey_page(log);
    let report = page.bytes();
    let len = report.len();
    if len <= out.len() {
        out[0..len].copy_from_slice(report);
    }
    len
}
