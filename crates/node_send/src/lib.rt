// What the board sends: the frames of an answer.
#![tactic(auto)]

ghost use Rattle.node_send.specs.Sending.{answer_frames, frames_to_send, Made};

use call_error::CallError;
use node_spec::FrameAnswer;
use reply_answer::Answer;

// The answer to a datagram: the transport reply, and behind it the frames of a reply.
fn send_answer(answer: Answer, reply: &[u8], board: u16, tool: u16, frames: &mut [u8; 160]) -> usize
    ensures { Made (answer_frames board tool answer reply.now) result frames.old frames.new }
{
    match answer {
        Answer::Rejected(code) => tx_transport::rejected(board, tool, code, frames),
        Answer::Written(_, _) => tx_transport::received_ok(board, tool, 0x00, frames),
        Answer::UpdateComplete => tx_transport::received_ok(board, tool, 0x00, frames),
        Answer::Replied(length) => {
            let datagram = buffer::part(reply, 0, length);
            tx_transport::received_ok_then(board, tool, 0x80, datagram, frames)
        }
    }
}

// Makes the frames to send for the answer to a frame, and gives their number, 0 to 10. The reply is in front of its
// buffer.
pub fn frames_to_send(
    answer: Result<FrameAnswer, CallError>,
    reply: &[u8],
    board: u16,
    tool: u16,
    frames: &mut [u8; 160],
) -> usize
    ensures { Made (frames_to_send board tool answer reply.now) result frames.old frames.new }
{
    match answer {
        Err(_) => 0,
        Ok(FrameAnswer::Ignored) => 0,
        Ok(FrameAnswer::Nothing) => 0,
        Ok(FrameAnswer::TransportRefusal(code)) => {
            tx_transport::rejected(board, tool, code, frames)
        }
        Ok(FrameAnswer::Answered(done)) => send_answer(done, reply, board, tool, frames),
    }
}
