// The runs of set bytes, rising, each cut at addresses divisible by 16.
ghost use Rattle.std.specs.Prelude.{◌+◌, ◌-◌, ◌≡◌, ◌<◌, ◌≤◌, ◌==◌, not, length, take_while, drop};
ghost use Rattle.std.specs.Iterator.{at_most};
ghost use Rattle.hexwrite.specs.Runs.{run_steps};
ghost use Rattle.hexwrite.specs.Writer.{run};

// From an address on so many bytes are set.
#[derive(Clone, Copy)]
pub struct Run {
    pub address: usize,
    pub count: usize,
}

// Those from a place on.
#[derive(Drop)]
pub struct Runs<'a> {
    pub marks: &'a [u8; 256],
    pub at: usize,
}

impl<'a> Runs<'a> {
    pub fn of(marks: &'a [u8; 256]) -> Runs<'a>
        ensures marks_value { result.marks.now ≡ marks.now }
        ensures at_value { result.at ≡ 0 }
    {
        Runs { marks, at: 0 }
    }
}

impl<'a> Iterator for Runs<'a> {
    type Item = Run;

    ghost next_gives = { run_steps };

    ghost remaining = { λ s. at_most (256 - s.at) };

    // Over the clear bytes to the next run.
    fn next(&mut self) -> Option<Run> {
        while self.at < 256 {
            let address = self.at;
            let count = run_length(self.marks, address);
            if count > 0 {
                self.at = address + count;
                return Some(Run { address, count });
            }
            self.at = address + 1;
        }
        None
    }
}

// How many bytes the run has that begins at an address: none where the byte is clear, and sixteen at most.
fn run_length(marks: &[u8; 256], address: usize) -> usize
    requires { address < 256 }
    ensures value { result ≡ run address (drop address marks.now) }
    ensures result_in_bounds { address + result ≤ 256 }
    ensures upper_bound { result ≤ 16 }
{
    let cut = (address / 16 + 1) * 16;
    set_bytes(&marks[address..cut])
}

// How many bytes are set before the first that is clear.
fn set_bytes(marks: &[u8]) -> usize
    ensures { result ≡ length (take_while (λ mark. not (mark == 0)) marks.now) }
{
    marks.iter().take_while(|mark| **mark != 0).count()
}
