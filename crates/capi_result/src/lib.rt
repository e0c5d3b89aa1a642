// What comes of a call as numbers in the result that a caller in C lends. Each function here is inlined: what comes of a
// call is a Result of an enum with fields, which would go over the stack otherwise. Without it an ignored frame took from
// 1.4 to 1.8 times as long.
#![tactic(auto)]

ghost use Rattle.std.specs.Prelude.{◌≡◌};
ghost use Rattle.capi_numbers.specs.Numbers.{in_bytes, result_bytes};
ghost use Rattle.node_spec.specs.TickCall.{tick_answer};
ghost use Rattle.capi_result.specs.Result.{error_numbers, answer_numbers, handled_numbers, frame_numbers};

use call_error::{CallError, Checked};
use capi_numbers::{Kind, ResultBytes};
use node_spec::FrameAnswer;
use reply_answer::Answer;

// The numbers are put into the result that C lends: `From`, which gives a value of its own, would make them elsewhere,
// to be copied here.

#[inline(always)]
fn of_error(error: CallError, frame_count: usize, res: &mut ResultBytes)
    ensures { res.new ≡ result_bytes (in_bytes (error_numbers error frame_count)) }
{
    let position = call_error::position_of(error).unwrap_or(capi_numbers::NO_POSITION);
    capi_numbers::of_refusal(call_error::number_of(error), position, frame_count, res)
}

#[inline(always)]
fn of_answer(answer: Answer, frame_count: usize, res: &mut ResultBytes)
    ensures { res.new ≡ result_bytes (in_bytes (answer_numbers answer frame_count)) }
{
    match answer {
        Answer::Rejected(code) => {
            capi_numbers::of_kind(Kind::Rejected as u32, 0, code, frame_count, res)
        }
        Answer::Written(index, n) => capi_numbers::of_write(index, n, frame_count, res),
        Answer::UpdateComplete => {
            capi_numbers::of_kind(Kind::UpdateComplete as u32, 0x00, 0, frame_count, res)
        }
        Answer::Replied(n) => capi_numbers::of_reply(n, frame_count, res),
    }
}

// The call for a whole datagram.
#[inline(always)]
pub fn of_handled(handled: Result<Answer, CallError>, res: &mut ResultBytes)
    ensures { res.new ≡ result_bytes (in_bytes (handled_numbers handled)) }
{
    match handled {
        Ok(answer) => of_answer(answer, 0, res),
        Err(error) => of_error(error, 0, res),
    }
}

// The frame call, with the number of frames to send.
#[inline(always)]
pub fn of_frame(answer: Result<FrameAnswer, CallError>, frame_count: usize, res: &mut ResultBytes)
    ensures { res.new ≡ result_bytes (in_bytes (frame_numbers answer frame_count)) }
{
    match answer {
        Err(error) => of_error(error, frame_count, res),
        Ok(FrameAnswer::Ignored) => {
            capi_numbers::of_kind(Kind::Ignored as u32, 0, 0, frame_count, res)
        }
        Ok(FrameAnswer::Nothing) => {
            capi_numbers::of_kind(Kind::Joined as u32, 0, 0, frame_count, res)
        }
        Ok(FrameAnswer::TransportRefusal(code)) => {
            capi_numbers::of_kind(Kind::TransportRefusal as u32, 0, code, frame_count, res)
        }
        Ok(FrameAnswer::Answered(done)) => of_answer(done, frame_count, res),
    }
}

// What comes of a lone tick: an error, or the numbers of a frame that is joined and not answered.
pub fn of_tick(heard: Checked, res: &mut ResultBytes)
    ensures { res.new ≡ result_bytes (in_bytes (frame_numbers (tick_answer heard) 0)) }
{
    of_frame(heard.map(|()| FrameAnswer::Nothing), 0, res)
}
