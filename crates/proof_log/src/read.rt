//! Reading a certificate.
ghost use Rattle.std.specs.Prelude.{◌≡◌, ◌≤◌, ◌++◌, IfOk, IfErr, IfSome, None, codes, length};
ghost use Rattle.proof_log.specs.Text.{AreWritten, proof_text};
ghost use Rattle.proof_log.specs.own.Reading.{one_then, HasNoHorizon};
ghost use Rattle.proof_log.specs.Place.{TellsPlace};
ghost use Rattle.horizon_rates.specs.Limits.{last_horizon};
ghost use Rattle.containers.specs.Limits.{certificate_bytes};

use crate::decimals::read_one;
use crate::entry::read_entry;
use crate::log::Log;
use crate::proof::{Proof, ProofFault};
use horizon_rates::LAST_HORIZON;
use std::alloc::Global;

// The horizon that the first line names, and what follows the line.
fn read_horizon(bytes: &[u8]) -> Option<(u32, &[u8])>
    ensures some { IfSome result (λ r. (r.0 ≤ last_horizon) × (bytes.now ≡ codes "horizon" ++ one_then r.0 r.1.now)) }
    ensures none { result ≡ None → HasNoHorizon bytes.now }
{
    let told = bytes.strip_prefix(b"horizon".as_slice())?;
    let (horizon, rest) = read_one(told)?;
    if horizon <= LAST_HORIZON {
        Some((horizon, rest))
    } else {
        None
    }
}

/// Reads a certificate, in one pass over its bytes. `Syntax` comes exactly where the bytes are none, at the first byte of the
/// first line that does not fit; what follows the last LF is a line where it is not empty, and a missing first line is at 0.
///
/// A clause without a model, hints that lead nowhere and numbers past all clauses are lawful text.
pub fn read_proof(alloc: Global, bytes: &[u8]) -> Result<Proof, ProofFault>
    requires { length bytes.now ≤ certificate_bytes }
    ensures value { IfOk result (λ proof. bytes.now ≡ proof_text proof.horizon proof.log) }
    ensures small { IfOk result (λ proof. proof.horizon ≤ last_horizon) }
    ensures written { IfOk result (λ proof. AreWritten proof.log) }
    ensures few { IfOk result (λ proof. length proof.log ≤ length bytes.now) }
    ensures syntax { IfErr result (λ fault. TellsPlace bytes.now fault) }
{
    let Some((horizon, first)) = read_horizon(bytes) else {
        return Err(ProofFault::Syntax { at: 0 });
    };
    let mut numbers = Vec::new(alloc);
    let mut entries = Log::new(alloc);
    let mut rest = first;
    while !rest.is_empty() {
        let Some(others) = read_entry(alloc, rest, &mut numbers, &mut entries)? else {
            let at = bytes.len() - rest.len();
            return Err(ProofFault::Syntax { at: at as u32 });
        };
        rest = others;
    }
    Ok(Proof {
        horizon,
        log: entries,
    })
}
