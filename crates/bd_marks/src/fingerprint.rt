//! Fingerprints and their digits.
ghost use Rattle.std.specs.Prelude.{◌≡◌, IfOk};
ghost use Rattle.bd_model.specs.Marks.{mark};
ghost use Rattle.bd_model.specs.Texts.{hex};

use crate::text::Text;
use bd_model::Mark;
use sha2::{Digest, Sha256};
use std::alloc::{AllocError as OutOfMemory, Global};

/// The fingerprint of a chunk: the SHA-256 of its bytes (FIPS 180-4).
pub fn mark_of(bytes: &[u8]) -> Mark
    ensures { result.0 ≡ mark bytes.now }
{
    Mark(Sha256::digest(bytes))
}

/// A fingerprint as 64 lower case hexadecimal digits.
pub fn hex_of(alloc: Global, mark: &Mark) -> Result<Text, OutOfMemory>
    ensures { IfOk result (λ text. text ≡ hex mark.now) }
{
    Ok(Text::new(hex::encode(alloc, &mark.0)?))
}

#[cfg(test)]
mod tests {
    use super::*;
    use std::test::Fail;

    // The examples of FIPS 180-4, and the text of no bytes.
    #[test]
    fn marks_are_those_of_the_standard(rt: HostRuntime) -> Result<(), Fail> {
        let cases: [(&[u8], &str); 3] = [
            (
                b"abc",
                "ba7816bf8f01cfea414140de5dae2223b00361a396177a9cb410ff61f20015ad",
            ),
            (
                b"",
                "e3b0c44298fc1c149afbf4c8996fb92427ae41e4649b934ca495991b7852b855",
            ),
            (
                b"abcdbcdecdefdefgefghfghighijhijkijkljklmklmnlmnomnopnopq",
                "248d6a61d20638b8e5c026930c3e6039a33ce45964ff2167f6ecedd419db06c1",
            ),
        ];
        for (message, digits) in cases.iter() {
            let text = hex_of(rt.alloc(), &mark_of(message))?;
            assert_eq!(rt; text.bytes(), digits.as_bytes());
        }
        Ok(())
    }
}
