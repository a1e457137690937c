// The first vector of data.
ghost use Rattle.std.specs.Prelude.{All, ◌≡◌, ◌≢◌, ◌<◌, ◌≤◌, [], ◌∷◌, length, false, Err, IfErr, IsErrOf, OnOk};
ghost use Rattle.io_edge.specs.Faults.{Reports};
ghost use Rattle.io_edge.specs.Feed.{to_come, limit};
ghost use Rattle.data_stream.specs.Vectors.{IsReady};
ghost use Rattle.runs.specs.Progress.{HasCome, HasNoVector};

use crate::stream::StreamFault;
use data_stream::{Next, Vectors};
use io_edge::{Feed, Source};
use ring_mod::Modulus;

/// Reads the first vector of data that must have one: data without a number are `Truncated`.
pub fn read_first<I: Source>(
    vectors: &mut Vectors,
    modulus: &Modulus,
    feed: &mut Feed,
    input: &mut I,
    vector: &mut [u64],
) -> Result<(), StreamFault>
    requires some { 0 < length vector.old }
    requires new { vectors.old ≡ record { size = length vector.old; done = 0; ended = false } }
    ensures come { OnOk result (HasCome modulus.now vectors.new feed.old feed.new
        (to_come feed.old (I.told input.old)) (to_come feed.new (I.told input.new))
        (vector.new ∷ [])) }
    ensures ready { OnOk result
        (IsReady vectors.new feed.new (to_come feed.new (I.told input.new))) }
    ensures residues { OnOk result (All (λ v. v < modulus.now) vector.new) }
    ensures size { vectors.new.size ≡ length vector.old }
    ensures none { IfErr result (λ fault. HasNoVector (length vector.old) modulus.now
        feed.old feed.new (to_come feed.old (I.told input.old))
        (to_come feed.new (I.told input.new)) fault) }
    ensures within { result ≢ Err StreamFault.TooLong → feed.new.taken ≤ limit }
    ensures empty { IsErrOf result StreamFault.ReadFault → feed.new.held ≡ [] }
    ensures read { Reports (I.faults input.old) (I.faults input.new)
        (IsErrOf result StreamFault.ReadFault) }
{
    match vectors.next(modulus, feed, input, vector) {
        Ok(Next::Vector) => Ok(()),
        Ok(Next::End) => Err(StreamFault::Truncated {
            have: 0,
            need: vector.len() as u64,
        }),
        Err(fault) => Err(StreamFault::from(fault)),
    }
}
