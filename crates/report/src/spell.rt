// How a record is spelled in a board line.
ghost use Rattle.std.specs.Prelude.{◌≡◌, ℕ, List};
ghost use Rattle.report.specs.Lines.{harness_text, feed_text, shown};
ghost use Rattle.report.specs.Texts.{text};

use crate::line::Text;
use records::feed::Feed;
use records::harness::Harness;

// a record's part of a board line
pub type Spelling = Text<30>;

pub trait Spelled: Copy {
    // the bytes that spell a record
    ghost spelled: { Self → List ℕ };

    fn spell(self) -> Spelling
        ensures { text result ≡ spelled self };
}

impl Spelled for Harness {
    ghost spelled = { harness_text };

    fn spell(self) -> Spelling {
        let mut text = Spelling::new();
        text.push_decimal(self.pick);
        text.push(" ");
        text.push_decimal(self.lifted);
        text.push(" ");
        text.push_hex(self.sum);
        text
    }
}

// The bits of a float, those of every NaN being the same.
fn shown_bits(bits: u32) -> u32
    ensures { result ≡ shown bits }
{
    if bits % 0x8000_0000 > 0x7f80_0000 {
        0x7fc0_0000
    } else {
        bits
    }
}

impl Spelled for Feed {
    ghost spelled = { feed_text };

    fn spell(self) -> Spelling {
        let mut text = Spelling::new();
        text.push_decimal(self.pick);
        text.push(" ");
        text.push_hex(shown_bits(self.tension));
        text.push(" ");
        text.push_hex(shown_bits(self.length));
        text
    }
}
