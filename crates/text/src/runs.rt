// The longest run of interlocked words.
ghost use Rattle.std.specs.Prelude.{◌≡◌, ◌+◌, ◌/◌, ◌^◌, ◌<◌, ◌≤◌, length, if◌then◌else◌};
ghost use Rattle.isa.specs.Registers.{reads_interlocked};
ghost use Rattle.text.specs.Runs.{longest, Longest};

fn lengthened(run: usize, word: u16) -> usize
    requires { run < 2 ^ 63 }
    ensures value { result ≡ (if reads_interlocked word then run + 1 else 0) }
    ensures bound { result ≤ run + 1 }
{
    if isa::reads_interlocked(word) {
        run + 1
    } else {
        0
    }
}

// The longest run of words at even addresses that all read as interlocked.
pub fn longest_run(text: &[u8]) -> usize
    ensures value { result ≡ longest text.now (length text.now / 2) }
    ensures longest { Longest text.now (length text.now / 2) result }
{
    let mut run = 0;
    let mut top = 0;
    for pair in text.as_chunks().0 {
        run = lengthened(run, u16::from_be_bytes(*pair));
        top = top.max(run);
    }
    top
}
