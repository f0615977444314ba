// Bytes, numbers and lines, written one after the other into a buffer that is lent.
ghost use Rattle.std.specs.Prelude.{◌≡◌, ◌∷◌};
ghost use Rattle.report.specs.Text.{field, fields, named};
ghost use Rattle.report.specs.Page.{Appends};

// A buffer, and where the next byte goes. What has no room there is cut off, where the answer's page of words asks for room.
#[derive(Drop)]
pub struct Page<'a> {
    pub out: &'a mut [u8],
    pub at: usize,
}

impl Page<'_> {
    // All of `bytes`, one by one: a piece of a line has a byte or two mostly, for which a call that copies costs more. The loop has a place of its own, since the one in `self` would be read again after each byte.
    pub(crate) fn append(&mut self, bytes: &[u8])
        ensures { Appends self.old self.new bytes.now }
    {
        let out = &mut *self.out;
        let mut at = self.at;
        for b in bytes {
            if at < out.len() {
                out[at] = *b;
                at += 1;
            }
        }
        self.at = at;
    }

    // A blank and a number. The library's `write!` promises its text only where nothing fails; this does always.
    pub(crate) fn number(&mut self, n: u64)
        ensures { Appends self.old self.new (field n) }
    {
        let mut digits = [0u8; 20];
        let k = io::decimal(n, &mut digits);
        self.append(b" ");
        self.append(&digits[..k]);
    }

    fn numbers(&mut self, ns: &[u32])
        ensures { Appends self.old self.new (fields ns.now) }
    {
        for n in ns {
            self.number(u64::from(*n));
        }
    }

    // A line: its name, a number, further numbers.
    pub(crate) fn line(&mut self, name: &[u8], first: u64, rest: &[u32])
        ensures { Appends self.old self.new (named name.now (first ∷ rest.now)) }
    {
        self.append(name);
        self.number(first);
        self.numbers(rest);
        self.append(b"\n");
    }
}
