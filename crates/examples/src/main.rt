// runs document 01's bench examples and writes what each gives
#![tactic(auto)]

mod logs;
mod runs;

use board::{Board, Component};
use std::io;

// Whether an address is a good entry in the range 0x1000 to 0x1FFF.
fn entries(rt: &impl Print) -> io::Result<()> {
    for address in [0x1000, 0x1FFC, 0xFFC, 0x1FFE, 0x2000] {
        let good = board::good_entry(0x1000, 0x1FFF, address);
        let answer = if good { "good" } else { "not good" };
        println!(rt; "entry {address:#X}: {answer}")?;
    }
    Ok(())
}

const COUNTING: [u8; board::UUID_BYTES] = [0, 1, 2, 3, 4, 5, 6, 7, 8, 9, 10, 11, 12, 13, 14, 15];

fn component(uuid: [u8; board::UUID_BYTES], capable: bool, svn: u32) -> Component {
    Component {
        uuid,
        capable,
        may_reset: false,
        optional: false,
        svn,
    }
}

// 2 components, 4 CPUs; the bytes of the first UUID are 00 to 0f.
fn sample() -> Board {
    let mut all = [component([0; board::UUID_BYTES], false, 0); board::MOST_COMPONENTS];
    all[0] = component(COUNTING, true, 5);
    all[1] = component([1; board::UUID_BYTES], true, 5);
    Board {
        components: 2,
        cpus: 4,
        first: 0x1000,
        last: 0x1FFF,
        component: all,
    }
}

// What these bytes are read as.
fn reading(rt: &impl Print, bytes: &[u8]) -> io::Result<()> {
    let n = bytes.len();
    match board::read_board(bytes) {
        Ok(b) => println!(rt; "reading {n} bytes: CPUs {}", b.cpus),
        Err(x) => println!(rt; "reading {n} bytes: refused {}", u64::from(x)),
    }
}

fn writing(rt: &impl Print, buf: &mut [u8; 60]) -> io::Result<()> {
    print!(rt; "writing a board: ")?;
    match board::put_board(buf, sample()) {
        Ok(n) => println!(rt; "{n} bytes, opens {:02x} {:02x}", buf[0], buf[1]),
        Err(x) => println!(rt; "refused {}", u64::from(x)),
    }
}

fn main(rt: HostRuntime) -> io::Result<()> {
    entries(&rt)?;
    let mut buf = [0u8; 60];
    writing(&rt, &mut buf)?;
    for part in [&buf[..], &buf[..59], &buf[..1]] {
        reading(&rt, part)?;
    }
    runs::all(&rt)?;
    logs::all(&rt)
}
