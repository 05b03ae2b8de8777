//! Lines that tell a number.

ghost use Rattle.std.specs.Prelude.{◌≡◌, ◌≤◌, length, true, OnErr, OnOk};
ghost use Rattle.std.specs.Io.KnownBytes.{Appends};
ghost use Rattle.exact_text.specs.Written.{AppendsProperPrefix};
ghost use Rattle.machine_lines.specs.Texts.{count_line};

use arrayvec::ArrayString;
use exact_text::{Output, OutputFailed, number_digits, write_whole};

/// The line that says how many lines or bytes follow.
fn count_text(word: &str, count: usize) -> ArrayString<32>
    requires { length word.now ≤ 10 }
    ensures { result.bytes ≡ count_line word.now count }
{
    let mut text = ArrayString::new();
    text.push_str(word);
    text.push_str(" ");
    text.push_str(number_digits(count as u64).as_str());
    text.push_str("\n");
    text
}

/// Writes how many lines or bytes follow, or under which number a state is kept: a word and the number. Condition: the word has 10 bytes at
/// most.
pub fn write_count<W: Output>(word: &str, count: usize, out: &mut W) -> Result<(), OutputFailed>
    requires { length word.now ≤ 10 }
    ensures ok { OnOk result (Appends (W.contents out.old) (W.contents out.new) (count_line word.now count)) }
    ensures err { OnErr result
        (AppendsProperPrefix (W.contents out.old) (W.contents out.new) (count_line word.now count)) }
    ensures failed { OnErr result (W.has_failed out.new ≡ true) }
{
    let text = count_text(word, count);
    write_whole(out, text.as_bytes())
}
