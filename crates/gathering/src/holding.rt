// What is held, moved: bytes said, a name opened and shut, a value started, an escape under way.
ghost use Rattle.std.specs.Prelude.{List, [], ◌∷◌, ◌≡◌, ◌-◌, ◌<◌, length, get_or, true};
ghost use Rattle.jsontext.specs.Utf8.{encode};
ghost use Rattle.jsontext.specs.Automaton.{Bracket};
ghost use Rattle.naming.specs.Gathering.{says, opens_name, shuts_name, starts};
ghost use Rattle.gathering.specs.Held.{Small, OnText, OnWords, OnObjects};

use crate::Gathered;
use characters::append;
use putting::put;

// The number of the innermost object, where so many brackets are open.
pub(crate) fn object_at(objects: &[u32], depth: u32) -> u32
    ensures { result ≡ get_or objects.now (depth - 1) 0 }
{
    let at = depth.saturating_sub(1) as usize;
    objects.get(at).copied().unwrap_or(0)
}

// A byte of a name.
pub(crate) fn say_byte(byte: u8, n: Gathered, text: &mut [u8]) -> Gathered
    requires { Small n }
    ensures { OnText (says (byte ∷ [])) text.old n text.new result }
{
    let size = n.size;
    if n.on {
        put(text, size, byte);
        return Gathered {
            size: size + 1,
            waits: 0,
            ..n
        };
    }
    Gathered { waits: 0, ..n }
}

// A character of a name.
pub(crate) fn say_code(code: u32, n: Gathered, text: &mut [u8]) -> Gathered
    requires { Small n × (code < 0x200000) }
    ensures { OnText (says (encode code [])) text.old n text.new result }
{
    if n.on {
        let size = append(text, n.size, code);
        return Gathered {
            size,
            waits: 0,
            ..n
        };
    }
    Gathered { waits: 0, ..n }
}

// A name of an object starts, with its number, so many bytes before the end.
pub(crate) fn open_name(object: u32, left: u32, n: Gathered, text: &mut [u8]) -> Gathered
    requires { Small n × (object < 65536) }
    ensures { OnText (opens_name true object left) text.old n text.new result }
{
    let size = n.size;
    put(text, size, (object / 256) as u8);
    put(text, size + 1, (object % 256) as u8);
    Gathered {
        size: size + 2,
        on: true,
        begun: size,
        left,
        unit: 0,
        waits: 0,
        ..n
    }
}

// The name under way ends.
pub(crate) fn shut_name(n: Gathered, words: &mut [u32]) -> Gathered
    requires { Small n }
    ensures { OnWords shuts_name words.old n words.new result }
{
    let at = n.filled;
    if n.on {
        put(words, at, n.begun as u32);
        put(words, at + 1, (n.size - n.begun) as u32);
        put(words, at + 2, n.left);
        return Gathered {
            filled: at + 3,
            on: false,
            ..n
        };
    }
    Gathered { on: false, ..n }
}

// A value starts with the byte, where so many brackets are open.
pub(crate) fn start_value(depth: u32, byte: u8, n: Gathered, objects: &mut [u32]) -> Gathered
    requires { Small n }
    ensures { (ks : List Bracket) → length ks ≡ depth → OnObjects (starts ks byte) objects.old n objects.new result }
{
    if byte == b'{' {
        put(objects, depth as usize, n.values);
    }
    Gathered {
        values: n.values + 1,
        ..n
    }
}
