// One vector of the generator: the sum of its transform, and what a run on it counts.
ghost use Rattle.std.specs.Prelude.{◌≡◌, ◌<◌, ◌≤◌, ◌^◌, length, vec_len, Err, IfOk, IfErr};
ghost use Rattle.matrix_meaning.specs.Valid.{IsInRange};
ghost use Rattle.icode.specs.Machine.{weighted};
ghost use Rattle.commands.specs.Equations.Orders.{chosen};
ghost use Rattle.commands.specs.Equations.Requests.{IsDocument};
ghost use Rattle.commands.specs.Programs.{IsCodeFor};
ghost use Rattle.commands.specs.Sample.{AreCountable, AreTotals};
ghost use Rattle.commands.specs.Sample.{sample_vector, weighted_sum, sample_text};
ghost use Rattle.spiral_words.specs.Statuses.Status.{IsDefined};
ghost use Rattle.commands.specs.Input.Refusals.{IsRefusal};
ghost use Rattle.runs.specs.Stream.{HasNoStranger};

use crate::documents::good_program;
use icode::action::Counts;
use listing_text::put;
use matrix_meaning::Request;
use memory::NoMemory;
use par_machine::Machine;
use ring_mod::Modulus;
use runs::transform;
use schedules::{Schedule, next_state};
use spiral_words::{Document, Status};
use std::alloc::Global;

// Puts the vector of the seed into the slice.
fn fill(vector: &mut [u64], modulus: Modulus, seed: u64)
    ensures { vector.new ≡ sample_vector modulus (length vector.old) seed }
{
    let mut state = seed;
    for place in 0..vector.len() {
        state = next_state(state);
        vector[place] = modulus.reduce(state);
    }
}

// The sum of the items, each as many times as its place, which is counted from 1.
fn weighted_sum(modulus: Modulus, vector: &[u64]) -> u64
    ensures { result ≡ weighted_sum modulus vector.now }
{
    let mut sum = modulus.reduce(0);
    for place in 0..vector.len() {
        let weight = modulus.reduce(place as u64 + 1);
        let term = modulus.mul(weight, modulus.reduce(vector[place]));
        sum = modulus.add(sum, term);
    }
    sum
}

// What the processors have executed together.
fn all_counts(machine: &Machine) -> Counts
    requires { AreCountable machine.now.code machine.now.state }
    ensures { AreTotals machine.now.code machine.now.state result }
{
    let mut operations = 0;
    let mut muls = 0;
    let mut loads = 0;
    let mut stores = 0;
    for proc in 0..machine.procs() {
        let counts = machine.counts(proc);
        operations += counts.operations;
        muls += counts.muls;
        loads += counts.loads;
        stores += counts.stores;
    }
    Counts {
        operations,
        muls,
        loads,
        stores,
    }
}

// The operations, where a multiplication counts as `weight` of them.
fn weighted(counts: &Counts, weight: u64) -> u64
    requires weight { 1 ≤ weight }
    requires room { weighted weight counts.now < 2 ^ 64 }
    ensures { result ≡ weighted weight counts.now }
{
    counts.operations + (weight - 1) * counts.muls
}

fn sample_text(
    alloc: Global,
    sum: u64,
    operations: u64,
    counts: &Counts,
) -> Result<Vec<u8>, NoMemory>
    ensures { IfOk result (λ text.
        text.items ≡ sample_text sum operations counts.now.loads counts.now.stores) }
{
    let mut text = Vec::new(alloc);
    put(&mut text, b"sum ", sum)?;
    put(&mut text, b"\noperations ", operations)?;
    put(&mut text, b"\nloads ", counts.loads)?;
    put(&mut text, b"\nstores ", counts.stores)?;
    text.extend_from_slice(b"\n")?;
    Ok(text)
}

// A machine with a good program for the request, and room for a vector.
fn engine(alloc: Global, request: &Request) -> Result<(Machine, Vec<u64>), Status>
    requires in_range { IsInRange request.now }
    ensures machine { IfOk result (λ made. IsCodeFor request.now made.0.code) }
    ensures room { IfOk result (λ made. vec_len made.1 ≡ made.0.code.size) }
    ensures some { IfOk result (λ made. 0 < vec_len made.1) }
    ensures refused { IfErr result (λ status. IsDefined status → chosen request.now (Err status)) }
    ensures refusal { IfErr result IsRefusal }
{
    let program = good_program(alloc, request)?;
    let machine = Machine::new(alloc, &program)?;
    let vector = vec![in alloc; 0; request.size as usize]?;
    Ok((machine, vector))
}

/// The sum of the transform of the seed's vector, run under the schedule, and what the run counts.
pub(crate) fn sample(
    alloc: Global,
    request: &Request,
    seed: u64,
    schedule: &Schedule,
) -> Result<Vec<u8>, Status>
    requires in_range { IsInRange request.now }
    requires turns { HasNoStranger schedule.now request.now.procs }
    ensures text { IfOk result (λ text.
        IsDocument (Document.Sample seed schedule.now) request.now text.items) }
    ensures refused { IfErr result (λ status. IsDefined status → chosen request.now (Err status)) }
    ensures refusal { IfErr result IsRefusal }
{
    let (mut machine, mut vector) = engine(alloc, request)?;
    let modulus = machine.modulus();
    fill(&mut vector, modulus, seed);
    transform(&mut machine, schedule, &mut vector);
    let sum = weighted_sum(modulus, &vector);
    let counts = all_counts(&machine);
    let operations = weighted(&counts, request.weight);
    let text = sample_text(alloc, sum, operations, &counts)?;
    Ok(text)
}
