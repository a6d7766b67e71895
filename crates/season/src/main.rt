// A season of a full hall: 256 rules and 512 atoms, then rules that come and go over the same boundaries, and one that would need a
// boundary too many. It lends a hall and a change list to the box and prints what is left: the bytes written, the records passed, the links and the atoms,
// and for each link how many atoms it has and the lowest-numbered one. `stdout` was worked out apart, by a scan over the live rules.
#![tactic(auto)]

use std::io;

// The stream as far as it is written.
#[derive(Drop)]
struct Stream {
    bytes: [u8; 8192],
    length: usize,
}

impl Stream {
    // Writes bytes behind the last one. What does not fit is left out.
    fn push(&mut self, bytes: &[u8]) {
        for byte in bytes {
            if let Some(place) = self.bytes.get_mut(self.length) {
                *place = *byte;
                self.length += 1;
            }
        }
    }

    // Writes an insert record: the prefix by its highest 9 bits, the priority 256 and more.
    fn push_insert(&mut self, rule: u8, link: u8, bits: u16, length: u8, more: u8) {
        let [first, second] = (bits << 7).to_be_bytes();
        self.push(&[4, 0, rule, link, first, second, 0, 0, length, 1, more]);
    }

    // The hall: 16 nodes v, from each but the last a link to port v and one to the next node, from the last one to port 15 and one to the
    // drop; and the close.
    fn push_hall(&mut self) {
        self.push(&[1, 16]);
        for v in 0..15u8 {
            self.push(&[2, v, 1, v]);
            self.push(&[2, v, 0, v + 1]);
        }
        self.push(&[2, 15, 1, 15]);
        self.push(&[2, 15, 2, 0]);
        self.push(&[3]);
    }

    // 256 rules: rule k over every second of the 512 pieces of 2^23 addresses, on link k % 32.
    fn push_rules(&mut self) {
        for k in 0..=255u8 {
            self.push_insert(k, k % 32, u16::from(k) * 2 + 1, 9, k);
        }
    }

    // Every fourth rule goes, and a broad rule with the same number and priority, over half of the range, comes in its place.
    fn push_changes(&mut self) {
        for k in (0..252u8).step_by(4) {
            self.push(&[5, 0, k]);
            self.push_insert(k, k % 32, u16::from(k) % 8 / 4 * 256, 1, k);
        }
    }
}

// Prints a link's number, how many atoms it has, and the lowest-numbered one, or 512 for none.
fn say_link(rt: &impl Print, label: &[u64; 512], link: usize) -> io::Result<()> {
    let atoms = labels::atoms_on(label, link);
    let lowest = labels::lowest_on(label, link).unwrap_or(512);
    println!(rt; "{link} {atoms} {lowest}")
}

fn main(rt: HostRuntime) -> io::Result<()> {
    let mut season = Stream {
        bytes: [0; 8192],
        length: 0,
    };
    season.push_hall();
    season.push_rules();
    season.push_changes();
    season.push(&[5, 0, 252]);
    season.push_insert(252, 0, 3, 32, 9);
    let mut hall = stream::new_box();
    let mut list = [0u64; meaning::LIST_ROOM];
    let ran = stream::run_stream(&season.bytes, &mut hall, &mut list);
    println!(rt;
        "{} {} {} {}",
        season.length, ran.past, hall.plan.links, hall.atoms.count
    )?;
    // the last of these links is not declared
    for link in 0..33 {
        say_link(&rt, &hall.label, link)?;
    }
    Ok(())
}
