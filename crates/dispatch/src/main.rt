// A book comes in on standard input, and what comes of it is printed: its lines, or its refusal.
#![tactic(auto)]

use std::io;

fn main(rt: HostRuntime) {
    if let Err(failure) = session::serve(&mut rt.reader(), &mut io::writer(&rt)) {
        session::complain(&rt, "standard input", failure);
    }
}
