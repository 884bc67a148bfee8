// An answer as four numbers, in words that the caller lends.
ghost use Rattle.std.specs.Prelude.{◌≡◌};
ghost use Rattle.embed.specs.Told.{told, bad_kind};

use slots::Answer;
use slots::hearing::Heard;

// A refusal of the library alone. The others have the numbers of document 01's table; this one is the last below the answers, which begin
// at 32.
const BAD_KIND: u32 = 31;

// An answer, in lent words.
pub fn tell(answer: Answer, out: &mut [u32; 4])
    ensures { out.new ≡ told answer }
{
    let heard = Heard::from(answer);
    let [first, second, third] = heard.values;
    *out = [heard.number, first, second, third];
}

// The refusal of a kind that does not exist.
pub fn tell_bad_kind(out: &mut [u32; 4])
    ensures { out.new ≡ bad_kind }
{
    *out = [BAD_KIND, 0, 0, 0];
}
