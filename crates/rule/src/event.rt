// What a rule recorded, as the log keeps it: a number for each event. specs/Log has what it stands for; nobody else takes such a number apart.
ghost use Rattle.std.specs.Prelude.{◌≡◌, eqb, ◌+◌, ◌*◌, ◌/◌, ◌%◌, ◌<◌};

const METHOD: u64 = 256;

const WORD: u64 = 65536;

const WORDS: u64 = 4294967296;
// The instance of a display: no file has that many.
const DISPLAY: usize = 255;

// The event of a call, or of a display.
pub(crate) fn packed(instance: usize, method: usize, word: u32) -> u64
    requires { (instance < 256) × (method < 256) }
    ensures { result ≡ instance + 256 * method + 65536 * word }
{
    instance as u64 + METHOD * (method as u64) + WORD * u64::from(word)
}

pub(crate) fn display(word: u32) -> u64
    ensures { result ≡ 255 + 256 * 0 + 65536 * word }
{
    packed(DISPLAY, 0, word)
}

pub fn is_display(event: u64) -> bool
    ensures { result ≡ eqb (event % 256) 255 }
{
    (event % METHOD) as usize == DISPLAY
}

pub fn instance(event: u64) -> usize
    ensures { (result ≡ event % 256) × (result < 256) }
{
    (event % METHOD) as usize
}

pub fn method(event: u64) -> usize
    ensures { (result ≡ event / 256 % 256) × (result < 256) }
{
    (event / METHOD % METHOD) as usize
}

// The word of the number that was given to a write, or displayed.
pub fn word(event: u64) -> u32
    ensures { result ≡ event / 65536 % 4294967296 }
{
    (event / WORD % WORDS) as u32
}
