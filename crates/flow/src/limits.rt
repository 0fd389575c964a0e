// The limits of an end, as its constants have them.

// At most so many series are open; so many messages a series and day; so many content bytes a message (at the receiving
// end also a series' part of the reassembly buffer); so many bytes of content that is given for a login packet or its
// answer.
#[derive(Clone, Copy)]
pub struct Limits {
    pub series: usize,
    pub messages: u32,
    pub content: usize,
    pub login: usize,
}

// The most that a message of the serving end takes: packets; bytes of one packet; bytes of all.
#[derive(Clone, Copy)]
pub struct Most {
    pub packets: usize,
    pub packet: usize,
    pub output: usize,
}
