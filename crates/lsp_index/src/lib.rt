// The 24-bit index that is sent: a byte for each band, band 0 in the highest.
#![tactic(auto)]

ghost use Rattle.std.specs.Prelude.{◌≡◌};
ghost use Rattle.lsp_index.specs.Index.{bytes, split, as_split, combine};

use float::status::Refusal;

// The low three bytes of any word.
pub fn index_bytes(index: u32) -> [u8; 3]
    ensures { result ≡ bytes index }
{
    let [_, high, middle, low] = index.to_be_bytes();
    [high, middle, low]
}

// The rows of an index, one a band. A word of more than 24 bits is no index.
#[tactic(auto, using(crate::proofs::Bytes::split_takes, crate::proofs::Bytes::split_refuses))]
pub fn split_lsp_index(index: u32) -> Result<[u8; 3], Refusal>
    ensures { as_split result ≡ split index }
{
    if 16777215 < index {
        return Err(Refusal::LongIndex);
    }
    Ok(index_bytes(index))
}

pub fn combine_lsp_index(bands: [u8; 3]) -> u32
    ensures { result ≡ combine bands }
{
    let [high, middle, low] = bands;
    u32::from_be_bytes([0, high, middle, low])
}
