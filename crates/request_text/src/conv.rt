// The line of a cyclic convolution.
ghost use Rattle.std.specs.Prelude.{◌≡◌, IfOk};
ghost use Rattle.grammar.specs.Reading.{whole};
ghost use Rattle.matrix_meaning.specs.Convolving.{IsConvRequest};
ghost use Rattle.request_text.specs.Answer.{ConvAnswers};
ghost use Rattle.request_text.specs.ConvLine.{conv_line};
ghost use Rattle.request_text.specs.ConvReading.{conv_at};
ghost use Rattle.request_text.specs.OneToFour.{spelt};
ghost use Rattle.request_text.specs.Limits.{judged_conv};
ghost use Rattle.request_text.specs.Reading.{GivesBy, GivesAllBy};

use crate::fault::RequestFault;
use crate::judge::{checked, coprime};
use crate::one_to_four::OneToFour;
use crate::spelling::{BUDGET, Fields, UNROLL, WEIGHT, dimension};
use grammar::{Cursor, Stuck};
use matrix_meaning::{Kind, Request};

#[tactic(auto, unfolding(crate::specs::ConvReading::conv_at))]
fn conv_of(cursor: &mut Cursor) -> Result<Fields, Stuck>
    ensures { GivesBy spelt result cursor.new (conv_at cursor.old) }
{
    let size = cursor.named_number(b"conv ", u64::MAX)?;
    let modulus = cursor.named_number(b" mod ", u64::MAX)?;
    let only = dimension(cursor, b" root ", size)?;
    Ok(Fields {
        kind: Kind::Dft,
        dimensions: OneToFour::One(only),
        modulus,
        procs: 1,
        line: 1,
        lanes: 1,
        unroll: cursor.optional_number(b" unroll ", u64::MAX, UNROLL),
        budget: cursor.optional_number(b" budget ", u64::MAX, BUDGET),
        weight: cursor.optional_number(b" weight ", u64::MAX, WEIGHT),
    })
}

fn whole_conv(text: &[u8]) -> Result<Fields, Stuck>
    ensures { GivesAllBy spelt result (whole conv_at text.now) }
{
    let mut cursor = Cursor::new(text);
    let fields = conv_of(&mut cursor)?;
    cursor.end()?;
    Ok(fields)
}

/// The request, or its first fault. A convolution divides by its size, as an inverse does.
fn checked_conv(fields: &Fields) -> Result<Request, RequestFault>
    ensures { result ≡ judged_conv (spelt fields.now) }
{
    let request = checked(fields)?;
    coprime(request.size, request.modulus)?;
    Ok(request)
}

/// The request that the line of a cyclic convolution spells, for the Fourier transform by which to
/// convolve. The line is without its end.
pub fn read_conv(line: &[u8]) -> Result<Request, RequestFault>
    ensures answer { ConvAnswers line.now result }
    ensures only { (r : Request) → conv_line line.now r → result ≡ judged_conv r }
    ensures in_range { IfOk result IsConvRequest }
{
    match whole_conv(line) {
        Ok(fields) => checked_conv(&fields),
        Err(stuck) => Err(RequestFault::Syntax {
            at: (line.len() - stuck.left) as u64,
        }),
    }
}
