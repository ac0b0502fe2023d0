// Certificates, and texts that are none.
ghost use Rattle.std.specs.Prelude.{◌≤◌};
ghost use Rattle.horizon_rates.specs.Limits.{last_horizon};

use super::holding::{holds, is, is_same};
use containers::limits::CERTIFICATE_BYTES;
use proof_log::laws::laws;
use proof_log::{Proof, ProofFault, proof_length, read_proof, write_proof, written};
use std::alloc::Global;

/// Bytes, and where they go wrong, if they do.
type Row = (&'static str, Option<u32>);

const ROWS: [Row; 27] = [
    ("horizon 0\nlearn by 0 1\n", None),
    ("horizon 0\n", None),
    (
        "horizon 255\nlearn 0 3 4294967294 by 4294967295\ndrop 7\nlearn by\n",
        None,
    ),
    ("horizon 17\ndrop 0\ndrop 0\n", None),
    ("", Some(0)),
    ("horizon 0", Some(0)),
    ("horizon 256\n", Some(0)),
    ("horizon 00\n", Some(0)),
    ("horizon\n", Some(0)),
    ("horizon 1 2\n", Some(0)),
    ("Horizon 1\n", Some(0)),
    ("horizon 0\nlearn by 0  1\n", Some(10)),
    ("horizon 0\nlearn by 0 1", Some(10)),
    ("horizon 0\nlearn by 0 1 \n", Some(10)),
    ("horizon 0\nlearn by 0\r\n", Some(10)),
    ("horizon 0\nlearn 2 1 by 0\n", Some(10)),
    ("horizon 0\nlearn 2 2 by 0\n", Some(10)),
    ("horizon 0\nlearn 2 3 by 0\n", Some(10)),
    ("horizon 0\nlearn 1 2 by 0\nlearn 1 2 by 01\n", Some(25)),
    ("horizon 0\nlearn 1 2 by 4294967296\n", Some(10)),
    ("horizon 0\nlearn 99999999999999999999 by 1\n", Some(10)),
    ("horizon 0\nlearn 1 2\n", Some(10)),
    ("horizon 0\ndrop\n", Some(10)),
    ("horizon 0\ndrop 1 2\n", Some(10)),
    ("horizon 0\ndrop 1\n\n", Some(17)),
    ("horizon 0\ndrop 1\nx", Some(17)),
    ("horizon 0\nlearn\n", Some(10)),
];

/// Whether a certificate is written as this text.
fn is_written(alloc: Global, proof: &Proof, text: &str) -> bool
    requires { proof.now.horizon ≤ last_horizon }
{
    written(&proof.log);
    let long = proof_length(proof.horizon, &proof.log);
    match write_proof(alloc, proof.horizon, &proof.log) {
        Ok(back) => is_same(back.as_slice(), text.as_bytes()) && long == text.len() as u64,
        Err(_) => false,
    }
}

/// Whether bytes are read, and written back byte by byte, or refused at their place.
fn is_so(alloc: Global, row: &Row) -> bool {
    let (text, place) = *row;
    if text.len() as u64 > CERTIFICATE_BYTES {
        return false;
    }
    match read_proof(alloc, text.as_bytes()) {
        Ok(proof) => place.is_none() && is_written(alloc, &proof, text),
        Err(ProofFault::Syntax { at }) => is(place, at),
        Err(_) => false,
    }
}

#[test]
fn each_text_is_read_or_refused_at_its_place(rt: HostRuntime) {
    laws();
    for row in &ROWS {
        holds(&rt, is_so(rt.alloc(), row), row.0);
    }
}
