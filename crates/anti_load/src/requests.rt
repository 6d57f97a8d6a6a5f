ghost use Rattle.std.specs.Prelude.{◌≡◌, map, IfOk};
ghost use Rattle.anti_ids.specs.List.{plain};
ghost use Rattle.rand_core.specs.Steps.{first_words};
ghost use Rattle.rand_pcg.specs.Pcg.{pcg32};
ghost use Rattle.anti_load.specs.Load.{generator, key_of, request_of};

use anti_app::{RequestDef, Requests};
use anti_ids::{List, NoMemory, Value, ValueFault};
use rand_core::utils::NextWord;
use rand_pcg::Pcg32;
use std::alloc::Global;

// The stream of the generator.
const STREAM: u64 = 54;

// How many keys there are.
const KEYS: u32 = 50;

// The key that a word chooses.
#[tactic(auto, using(crate::proofs::Keys::key_is_value))]
fn key_of(alloc: Global, word: u32) -> Result<Value, NoMemory>
    ensures { IfOk result (λ key. key ≡ key_of word) }
{
    let number = word % KEYS;
    let text = format!(in alloc; "k{number}")?;
    match Value::new(alloc, text.as_bytes()) {
        Ok(key) => Ok(key),
        Err(ValueFault::NoMemory) => Err(NoMemory),
        // `k` and two digits at most are a value
        Err(_) => unreachable!(),
    }
}

// The request that gives the poster the key of a word.
fn request_of(alloc: Global, word: u32) -> Result<RequestDef, NoMemory>
    ensures { IfOk result (λ request. request ≡ request_of word) }
{
    let value = key_of(alloc, word)?;
    Ok(RequestDef {
        service: 0,
        handler: 0,
        value,
    })
}

/// So many requests, in the order in which the generator of their number draws them.
pub fn requests_drawn(alloc: Global, n: u32) -> Result<Requests, NoMemory>
    ensures { IfOk result (λ requests. requests ≡ plain (map request_of (first_words pcg32 n (generator n)))) }
{
    let mut drawn = Pcg32::new(u64::from(n), STREAM);
    let mut requests = List::new(alloc);
    for _ in 0..n {
        let request = request_of(alloc, drawn.next_word())?;
        requests.add(request)?;
    }
    Ok(requests)
}
