//! The hash of a flow.

ghost use Rattle.std.specs.Prelude.{◌≡◌};
ghost use Rattle.apf_flow.specs.Flow.{flow_hash_of};

use sha2::{Digest, Sha256};

/// The hash of the flow that a flow schema's name and a flow distinguisher make.
///
/// It is the first 8 bytes, read as a little-endian number, of the SHA-256 digest (FIPS 180-4) of
/// the schema's bytes, one zero byte, and the distinguisher's bytes. Any texts are taken, empty
/// ones too, and nothing is refused. The apiserver's package `flowcontrol` hashes the same two
/// texts; equal numbers are not claimed for any of its releases. Two flows may have one hash.
pub fn flow_hash(schema: &str, distinguisher: &str) -> u64
    ensures { result ≡ flow_hash_of schema.now distinguisher.now }
{
    let mut hasher = Sha256::new();
    hasher.update(schema);
    hasher.update([0u8].as_slice());
    hasher.update(distinguisher);
    let digest = hasher.finalize();
    let (first_eight, _rest) = digest.split_first_chunk::<8>().unwrap();
    u64::from_le_bytes(*first_eight)
}
