// The digits of 32 bits in hexadecimal.
ghost use Rattle.std.specs.Prelude.{◌≡◌};
ghost use Rattle.report.specs.Texts.{hex_of};

// (By `small_letters` a body that made letters small would prove too: so one that makes them large
// is refused for just that.)
#[tactic(auto, using(crate::proofs::Hex::hex_bytes, crate::proofs::Hex::small_letters))]
pub fn hex_digits(bits: u32) -> [u8; 8]
    ensures { result ≡ hex_of bits }
{
    let mut digits = [0; 8];
    hex::encode_to_slice(bits.to_be_bytes(), &mut digits).unwrap();
    digits
}
