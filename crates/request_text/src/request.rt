ghost use Rattle.std.specs.Prelude.{◌≡◌, IfOk};
ghost use Rattle.matrix_meaning.specs.Valid.{IsInRange};
ghost use Rattle.request_text.specs.Answer.{Answers};
ghost use Rattle.request_text.specs.Limits.{judged};
ghost use Rattle.request_text.specs.Line.{request_line};

use crate::fault::RequestFault;
use crate::judge::checked;
use crate::spelling::whole_request;
use matrix_meaning::Request;

/// The request that a line spells. The line is without its end.
pub fn read_request(text: &[u8]) -> Result<Request, RequestFault>
    ensures answer { Answers text.now result }
    ensures only { (r : Request) → request_line text.now r → result ≡ judged r }
    ensures in_range { IfOk result IsInRange }
{
    match whole_request(text) {
        Ok(fields) => checked(&fields),
        Err(stuck) => Err(RequestFault::Syntax {
            at: (text.len() - stuck.left) as u64,
        }),
    }
}
