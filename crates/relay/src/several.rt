// A bufferful from above at the box (02, No. 8): Receive for one packet after the other.
ghost use Rattle.relay.specs.Bufferful.{ReceivesSeveralBox};

use crate::relay::Relay;
use flow::several::{ReceivedSeveral, packet_size, packets_rest, receive_turn};

// What the call leaves: the box, its answer, and how many bytes were taken, those of a refused packet among them.
#[derive(Clone, Copy)]
pub struct ReceiveSeveralStep {
    pub end: Relay,
    pub answer: ReceivedSeveral,
    pub taken: usize,
}

impl Relay {
    // Receive for packet after packet, up to the first message or refusal, a short rest or the end.
    pub fn receive_several(
        self,
        packets: &[u8],
        log: &mut [u8],
        buffer: &mut [u8],
    ) -> ReceiveSeveralStep
        ensures { ReceivesSeveralBox self packets.now log.old buffer.old result
            log.new buffer.new }
    {
        let mut end = self;
        let mut at: usize = 0;
        loop {
            let n = packet_size(packets, at);
            if n == 0 {
                return ReceiveSeveralStep {
                    end,
                    answer: packets_rest(&packets[at..]),
                    taken: at,
                };
            }
            let past = at + n;
            let step = end.receive(&packets[at..past], log, buffer);
            end = step.end;
            if let Some(answer) = receive_turn(at, n, step.answer) {
                return ReceiveSeveralStep {
                    end,
                    answer,
                    taken: past,
                };
            }
            at = past;
        }
    }
}
