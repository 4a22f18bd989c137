// Cases compared with what they should be.
use access::numbered::Numbered;
use std::alloc::Global;
use std::{fmt, io};

// What was compared so far; each case is printed as it is counted.
#[derive(Drop)]
pub struct Tally<'a> {
    rt: &'a HostRuntime,
    cases: u32,
    wrong: u32,
}

impl<'a> Tally<'a> {
    pub(crate) fn new(rt: &'a HostRuntime) -> Self {
        Tally {
            rt,
            cases: 0,
            wrong: 0,
        }
    }

    // Where the texts of cases are made.
    pub(crate) fn heap(&self) -> Global {
        self.rt.alloc()
    }

    // Counts a case, and prints it.
    pub(crate) fn case(&mut self, name: &str, got: &str, want: &str) -> io::Result<()> {
        let rt = self.rt;
        self.cases = self.cases.saturating_add(1);
        if got == want {
            return println!(rt; "{name}: {got}");
        }
        self.wrong = self.wrong.saturating_add(1);
        println!(rt; "{name}: {got}, and should be {want}")
    }

    // Counts an answer: what was given, or the number of the refusal.
    pub(crate) fn answer<T: fmt::Display + Drop, R: Numbered>(
        &mut self,
        name: &str,
        answer: Result<T, R>,
        want: &str,
    ) -> io::Result<()> {
        let got = match answer {
            Ok(given) => format!(in self.heap(); "{given}")?,
            Err(refusal) => {
                let number = refusal.number();
                format!(in self.heap(); "{number}")?
            }
        };
        self.case(name, got.as_str(), want)
    }

    pub(crate) fn close(self) -> io::Result<()> {
        let rt = self.rt;
        let cases = self.cases;
        let wrong = self.wrong;
        println!(rt; "{cases} cases, {wrong} wrong")
    }
}
