// A lent output that octets are put into, each behind the one before it: the writer's announcements and what is printed.
// Every function takes any output, and leaves out what does not fit.
#![tactic(auto)]

ghost use Rattle.std.specs.Prelude.{◌≡◌, ◌∷◌, [], take};
ghost use Rattle.output.specs.Output.{output_at, puts, seen, Put};

// The octets, and the place behind what was put: they travel together through all that puts.
#[derive(Drop)]
pub struct Output<'a> {
    octets: &'a mut [u8],
    end: usize,
}

impl<'a> Output<'a> {
    // Before anything is put.
    pub fn new(octets: &'a mut [u8]) -> Output<'a>
        ensures lent { result.octets.ghost_name ≡ octets.entry.ghost_name }
        ensures empty { seen result ≡ output_at octets.old 0 }
    {
        Output { octets, end: 0 }
    }

    // Behind so many octets that stay as they are; any place can be named.
    pub fn at(octets: &'a mut [u8], place: usize) -> Output<'a>
        ensures lent { result.octets.ghost_name ≡ octets.entry.ghost_name }
        ensures behind { seen result ≡ output_at octets.old place }
    {
        Output { octets, end: place }
    }

    // The place behind what was put.
    pub fn end(&self) -> usize
        ensures { result ≡ (seen self.now).end }
    {
        self.end
    }

    // What was put.
    pub fn front(&self) -> &[u8]
        ensures { result.now ≡ take (seen self.now).end (seen self.now).octets }
    {
        self.octets.get(..self.end).unwrap_or(self.octets)
    }

    pub fn put_octet(&mut self, b: u8)
        ensures { Put (b ∷ []) self.old self.new }
    {
        let at = self.end;
        if at < self.octets.len() {
            self.octets[at] = b;
            self.end = at + 1;
        }
    }

    pub fn put_all(&mut self, octets: &[u8])
        ensures { Put octets.now self.old self.new }
    {
        self.end = put_all(self.octets, self.end, octets);
    }
}

// Octets put at a place of what is lent; the place behind them. What has room is known beforehand, so that no octet is tested alone.
pub fn put_all(out: &mut [u8], at: usize, octets: &[u8]) -> usize
    ensures { output_at out.new result ≡ puts octets.now (output_at out.old at) }
{
    if out.len() < at {
        return at;
    }
    let n = octets.len().min(out.len() - at);
    out[at..at + n].copy_from_slice(&octets[..n]);
    at + n
}
