//! Formulas as texts, in the language SPL (Püschel et al., 2005): each formula has one spelling, and each text that is
//! none shows a first fault from left to right.
#![tactic(auto)]

ghost use Rattle.spl_text.specs.Answer.{Answers};
ghost use Rattle.spl_text.specs.Laws.{HasOneAnswer, HasSomeAnswer, AreSame};
ghost use Rattle.spl_text.specs.Reader.{IsRead};

mod arguments;
mod kinds;
mod parts;
mod printing;
mod reading;

pub use printing::print_spl;
pub use reading::{SplFault, read_spl};

/// A text has one answer, want of memory aside. It is what reading from left to right gives.
pub fn texts_have_one_answer()
    ensures one { HasOneAnswer Answers }
    ensures some { HasSomeAnswer Answers }
    ensures read { AreSame Answers IsRead }
{}
