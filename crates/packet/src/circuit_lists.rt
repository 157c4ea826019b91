// Circuits are listed, judged and found.
ghost use Rattle.std.specs.Prelude.{◌≡◌, [], ◌+◌, ◌*◌, ◌≤◌, min, length, drop, get_or};
ghost use Rattle.packet.specs.Answers.{answered, answer_of};
ghost use Rattle.packet.specs.Lists.{any_of};
ghost use Rattle.packet.specs.Circuits.{circuits_of, wrong_length, address_ff, wrong_extension, alike, two_alike, circuits_refusal, list_refusal, listed, no_circuit, record_of, listing, number_from};

use super::{Answer, Circuit, Circuits, Listed, Refusal};

impl Circuit {
    // The place of no circuit.
    #[tactic(auto, unfolding(crate::specs::Circuits::no_circuit))]
    fn none() -> Circuit
        ensures { result ≡ no_circuit }
    {
        Circuit {
            address: 0,
            extended: 0,
            extension: 0,
        }
    }

    // Refusal 3's condition.
    #[tactic(auto, unfolding(crate::specs::Circuits::wrong_extension))]
    fn wrong_extension(self) -> bool
        ensures { result ≡ wrong_extension self }
    {
        if 1 < self.extended {
            return true;
        }
        if self.extended == 0 {
            return self.extension != 0;
        }
        false
    }
}

impl Circuits {
    // The record of no circuits.
    #[tactic(auto, unfolding(crate::specs::Circuits::record_of))]
    pub fn none() -> Circuits
        ensures { result ≡ record_of [] }
    {
        let no = Circuit::none();
        Circuits {
            count: 0,
            list: [no; 4],
        }
    }

    // Four circuits as a list's bytes.
    // Stays: (a) field by field: `tests/arrays` names these twelve bytes.
    fn bytes(self) -> [u8; 12]
        ensures { circuits_of result ≡ self.list }
    {
        let list = self.list;
        let a = list[0];
        let b = list[1];
        let c = list[2];
        let d = list[3];
        [
            a.address,
            a.extended,
            a.extension,
            b.address,
            b.extended,
            b.extension,
            c.address,
            c.extended,
            c.extension,
            d.address,
            d.extended,
            d.extension,
        ]
    }

    // The number of those bytes that belong to listed circuits.
    fn bytes_listed(self) -> usize
        ensures { result ≡ 3 * min self.count 4 }
    {
        3 * usize::from(self.count).min(4)
    }

    // The number of a circuit among those listed.
    pub fn number_of(self, circuit: Circuit) -> Option<usize>
        ensures { result ≡ number_from (listed self) circuit 0 }
    {
        let bytes = self.bytes();
        let n = self.bytes_listed();
        number_in(&bytes[..n], circuit)
    }

    // The listed circuits are refused by 2, 3 or 4, or not.
    pub fn check(self) -> Answer
        ensures { result ≡ answer_of (circuits_refusal (listed self)) }
    {
        let bytes = self.bytes();
        let n = self.bytes_listed();
        check(&bytes[..n])
    }

    // The circuits of a list's bytes, of which there are at most twelve.
    fn of(bytes: &[u8]) -> Circuits
        requires { length bytes.now ≤ 12 }
        ensures { result ≡ record_of (circuits_of bytes.now) }
    {
        let no = Circuit::none();
        let mut list = [no; 4];
        let count = bytes.len() / 3;
        for i in 0..count {
            list[i] = circuit_at(bytes, i);
        }
        Circuits {
            count: count as u8,
            list,
        }
    }

    // A list's bytes, taken or refused.
    #[tactic(auto, unfolding(crate::specs::Answers::answered, crate::specs::Answers::answer_of, crate::specs::Answers::refusal_of, crate::specs::Circuits::list_refusal, crate::specs::Circuits::listing, crate::specs::Circuits::wrong_length))]
    pub fn list(bytes: &[u8]) -> Result<Circuits, Refusal>
        ensures { result ≡ answered (list_refusal bytes.now) (listing bytes.now) }
    {
        if wrong_length(bytes.len()) {
            return Err(Refusal::ListLength);
        }
        check(bytes)?;
        Ok(Circuits::of(bytes))
    }
}

impl<T> Listed<T> {
    // A record for the circuits of a list's bytes: `fresh` makes it.
    #[tactic(auto, unfolding(crate::specs::Answers::answered, crate::specs::Answers::answer_of, crate::specs::Circuits::listing))]
    pub fn of<F: FnOnce(Circuits) -> T>(bytes: &[u8], fresh: F) -> Listed<T>
        requires { F.pre fresh (listing bytes.now) }
        ensures answer { result.answer ≡ answer_of (list_refusal bytes.now) }
        ensures made { F.post fresh (listing bytes.now) result.«record» }
    {
        let listing = Circuits::list(bytes);
        let circuits = listing.unwrap_or(Circuits::none());
        Listed {
            answer: listing.map(|_| ()),
            record: fresh(circuits),
        }
    }
}

// Refusal 1's condition.
#[tactic(auto, unfolding(crate::specs::Circuits::wrong_length))]
fn wrong_length(n: usize) -> bool
    ensures { result ≡ wrong_length n }
{
    !matches!(n, 3 | 6 | 9 | 12)
}

// The circuit with a number in a list's bytes.
fn circuit_at(list: &[u8], i: usize) -> Circuit
    requires { 3 * i + 3 ≤ length list.now }
    ensures { result ≡ get_or (circuits_of list.now) i no_circuit }
{
    let at = 3 * i;
    Circuit {
        address: list[at],
        extended: list[at + 1],
        extension: list[at + 2],
    }
}

// Another circuit of a list's bytes, behind the one with number i, is alike.
fn alike_behind(list: &[u8], i: usize) -> bool
    requires { 3 * i + 3 ≤ length list.now }
    ensures { result ≡ any_of (alike (get_or (circuits_of list.now) i no_circuit)) (drop (i + 1) (circuits_of list.now)) }
{
    let circuit = circuit_at(list, i);
    (i + 1..list.len() / 3).any(|k| circuit == circuit_at(list, k))
}

// Refusal 2's condition, of some circuit of a list's bytes.
fn any_address_ff(list: &[u8]) -> bool
    ensures { result ≡ any_of address_ff (circuits_of list.now) }
{
    (0..list.len() / 3).any(|i| circuit_at(list, i).address == 0xff)
}

// Refusal 3's condition, of some circuit of a list's bytes.
fn any_wrong_extension(list: &[u8]) -> bool
    ensures { result ≡ any_of wrong_extension (circuits_of list.now) }
{
    (0..list.len() / 3).any(|i| circuit_at(list, i).wrong_extension())
}

// Refusal 4's condition: two circuits of a list's bytes are alike.
fn two_alike(list: &[u8]) -> bool
    ensures { result ≡ two_alike (circuits_of list.now) }
{
    (0..list.len() / 3).any(|i| alike_behind(list, i))
}

// The circuits of a list's bytes are refused by 2, 3 or 4, or not.
#[tactic(auto, unfolding(crate::specs::Circuits::circuits_refusal, crate::specs::Answers::answer_of, crate::specs::Answers::answered, crate::specs::Answers::refusal_of))]
pub fn check(list: &[u8]) -> Answer
    ensures { result ≡ answer_of (circuits_refusal (circuits_of list.now)) }
{
    if any_address_ff(list) {
        return Err(Refusal::AddressFF);
    }
    if any_wrong_extension(list) {
        return Err(Refusal::WrongExtension);
    }
    if two_alike(list) {
        return Err(Refusal::TwoAlike);
    }
    Ok(())
}

// The number of a circuit among those of a list's bytes.
pub fn number_in(list: &[u8], circuit: Circuit) -> Option<usize>
    ensures { result ≡ number_from (circuits_of list.now) circuit 0 }
{
    (0..list.len() / 3).position(|i| circuit_at(list, i) == circuit)
}
