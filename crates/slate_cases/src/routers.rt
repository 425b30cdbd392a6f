// Calls of a router of a database.
use crate::databases::Database;
use slate_calls::answers::Answer;
use slate_calls::call_line::CallLine;
use slate_errors::SlateError;
use slate_route::{Added, RouteRefusal, Routed};

#[derive(Clone, Copy)]
enum Call {
    Add,
    Read,
    Count,
    Number,
    Open,
}

const CALLS: &[(&[u8], Call)] = &[
    (b"add", Call::Add),
    (b"read", Call::Read),
    (b"count", Call::Count),
    (b"number", Call::Number),
    (b"open", Call::Open),
];

impl Database {
    /// Makes a call of the router.
    pub fn call_router(&mut self, line: &mut CallLine<'_>) {
        match line.name(CALLS) {
            Some(Call::Add) => self.add_to_router(line),
            Some(Call::Read) => self.read_router(line),
            Some(Call::Count) => line.print_number(u64::from(self.router.count())),
            Some(Call::Number) => self.router.number(line.short()).print(line),
            Some(Call::Open) => {
                let is_open = self.router.is_open(line.short());
                line.print_text(if is_open { "open" } else { "closed" });
            }
            None => line.unread(),
        }
    }

    fn add_to_router(&mut self, line: &mut CallLine<'_>) {
        let (lifetime, interval, moment) = (line.number(), line.number(), line.time());
        let (alloc, store) = (line.alloc(), &mut self.store);
        print_added(
            self.router.add(alloc, store, lifetime, interval, moment),
            line,
        );
    }

    fn read_router(&mut self, line: &mut CallLine<'_>) {
        let (at_least, key, moment) = (line.number(), line.bytes(), line.time());
        let (alloc, operator) = (line.alloc(), self.operator.as_ref());
        let key = key.as_slice();
        let store = &mut self.store;
        let read = self
            .router
            .read_at_least(alloc, store, key, at_least, moment, operator);
        print_routed(read, line);
    }
}

fn print_added(added: Result<Added, RouteRefusal>, line: &mut CallLine<'_>) {
    match added {
        Ok(added) => {
            line.print_text("follower ");
            line.print_number(u64::from(added.follower));
            line.print_text(" at ");
            line.print_number(added.at);
        }
        Err(refusal) => print_refusal(refusal, line),
    }
}

fn print_routed(read: Result<Routed, RouteRefusal>, line: &mut CallLine<'_>) {
    match read {
        Ok(read) => {
            line.print_text("follower ");
            line.print_number(u64::from(read.follower));
            line.print_text(" at ");
            line.print_number(read.number);
            line.print_text(" polls ");
            line.print_number(u64::from(read.polls));
            line.print_text(" ");
            read.row.print(line);
        }
        Err(refusal) => print_refusal(refusal, line),
    }
}

fn print_refusal(refusal: RouteRefusal, line: &mut CallLine<'_>) {
    match refusal {
        RouteRefusal::NoFollower => line.print_text("no follower"),
        RouteRefusal::Poll(error) => print_fault("poll: ", error, line),
        RouteRefusal::Read(error) => print_fault("read: ", error, line),
        RouteRefusal::Open(error) => print_fault("open: ", error, line),
        RouteRefusal::Behind { at_least, best } => {
            line.print_text("behind ");
            line.print_number(best);
            line.print_text(" of ");
            line.print_number(at_least);
        }
        RouteRefusal::Full => line.print_text("full"),
        RouteRefusal::NoMemory => line.no_memory(),
    }
}

fn print_fault(label: &str, error: SlateError, line: &mut CallLine<'_>) {
    line.print_text(label);
    error.print(line);
}
