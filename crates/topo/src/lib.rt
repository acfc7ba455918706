// The dependency order: a slot's references are entered before the slot, depth first.
#![tactic(auto)]

ghost use Rattle.std.specs.Prelude.{◌≡◌, ◌+◌, ◌≤◌, ◌<◌};
ghost use Rattle.topo.specs.Topo.{free, enter, ordered};

use levels::Slot;

/// The slots in the order in which they were entered, where each stands, and how many there are.
#[derive(Clone, Copy)]
pub struct Order {
    pub list: [Slot; 7],
    // 7: not entered. No Option: the TIP source compares places, and a slot that is not entered stands past all others, where None comes before each Some.
    pub place: [u8; 7],
    // Beside the list, and no vector of the slots: what is not yet entered is zero, as in refmvs.rs, and the state is copied.
    pub count: usize,
}

/// Enters a slot, its references first, where it is not yet entered: topo_insert of refmvs.rs. `links` has the references of each slot, seven to a slot; one past slot 6 counts as none.
pub fn topo_insert(o: Order, links: &[[Option<Slot>; 7]; 7], slot: Slot) -> Order
    requires slot { slot.0 < 7 }
    requires room { o.count + free o.place ≤ 7 }
    ensures { result ≡ enter 7 links.now slot.0 o }
{
    // By value, as the definition makes one order of another.
    let at = slot.index();
    let mut st = o;
    let p = st.place[at];
    if p != 7 {
        return st;
    }
    st.place[at] = 0;
    for &link in &links[at] {
        if let Some(r) = link {
            if r.0 < 7 {
                let q = st.place[r.index()];
                if q == 7 {
                    st = topo_insert(st, links, r);
                }
            }
        }
    }
    let k = st.count;
    st.list[k] = slot;
    // `as`, as no From goes from usize to u8: k is below 7.
    st.place[at] = k as u8;
    st.count = k + 1;
    st
}

/// The dependency order of the first n slots, the slots in use.
pub fn topo_order(links: &[[Option<Slot>; 7]; 7], n: usize) -> Order
    requires { n ≤ 7 }
    ensures { result ≡ ordered links.now n }
{
    let mut o = Order {
        list: [Slot(0); 7],
        place: [7u8; 7],
        count: 0,
    };
    // By its number: a slot's number is what is entered.
    for i in 0..n {
        o = topo_insert(o, links, Slot::from_index(i));
    }
    o
}
