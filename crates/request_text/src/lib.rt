//! The line of a request.
#![tactic(auto)]

ghost use Rattle.request_text.specs.Answer.{Answers, ConvAnswers};
ghost use Rattle.request_text.specs.ConvLine.{conv_line};
ghost use Rattle.matrix_meaning.specs.Convolving.{IsConvRequest};
ghost use Rattle.matrix_meaning.specs.Valid.{IsInRange};
ghost use Rattle.request_text.specs.Laws.{SpellsOnce, HasOneAnswer, HasSomeAnswer, PassesBy, RangeIsTable};
ghost use Rattle.request_text.specs.Limits.{judged, judged_conv};
ghost use Rattle.request_text.specs.Line.{request_line};

mod conv;
mod fault;
mod judge;
mod one_to_four;
mod request;
mod spelling;

pub use conv::read_conv;
pub use fault::{Field, RequestFault};
pub use request::read_request;
pub use schedules::{Mix, MixFault, Schedule, ScheduleFault, read_mix, read_schedule};

/// A line spells one request at most, and has an answer and no other.
pub fn lines_have_one_answer()
    ensures spelt { SpellsOnce request_line }
    ensures answer { HasOneAnswer Answers }
    ensures some { HasSomeAnswer Answers }
    ensures conv_spelt { SpellsOnce conv_line }
    ensures conv_answer { HasOneAnswer ConvAnswers }
    ensures conv_some { HasSomeAnswer ConvAnswers }
{}

/// Of the requests that lines spell, those in range have no fault, and no others. They are in range where each field is
/// within its limits in the table.
pub fn requests_in_range_pass()
    ensures requests { PassesBy request_line judged IsInRange }
    ensures limits { RangeIsTable }
    ensures convolutions { PassesBy conv_line judged_conv IsConvRequest }
{}
