// Where the program prints.
use std::io;
use std::io::BufWriter;
use std::rt::Stdout;

// The runtime, and standard output behind a buffer. It stays in each program that has one: of what standard output has taken no clause can speak.
#[derive(Drop)]
pub(crate) struct Report<'a> {
    pub(crate) rt: &'a HostRuntime,
    pub(crate) out: BufWriter<Stdout>,
}

impl<'a> Report<'a> {
    pub(crate) fn new(rt: &'a HostRuntime) -> io::Result<Report<'a>> {
        Ok(Report {
            rt,
            out: BufWriter::new(rt.alloc(), rt.stdout())?,
        })
    }
}
