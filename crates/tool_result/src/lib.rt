// What the tool's writer and readers give, put into lent bytes for a caller in C.
#![tactic(auto)]

ghost use Rattle.std.specs.Prelude.{◌≡◌};
ghost use Rattle.tool_result_spec.specs.Layout.{composed_bytes, acknowledged_bytes, rejection_bytes, reply_fields_bytes};
ghost use Rattle.tool_result_spec.specs.Numbers.{composed_of, acknowledged_of, rejection_of, fields_of_reply, ToldApart};

use tool_read_ack::{Received, Rejection};
use tool_read_spec::ReplyIn;
use tool_write_spec::WriteError;

mod fields;
mod layout;

pub fn written_into(written: Result<usize, WriteError>, composed: &mut [u8; 16])
    ensures { composed.new ≡ composed_bytes (composed_of written) }
{
    layout::put_composed(fields::of_written(written), composed);
}

pub fn received_into(received: Option<Received>, acknowledged: &mut [u8; 8])
    ensures { acknowledged.new ≡ acknowledged_bytes (acknowledged_of received) }
{
    layout::put_acknowledged(fields::of_received(received), acknowledged);
}

pub fn rejection_into(rejection: Option<Rejection>, out: &mut [u8; 32])
    ensures { out.new ≡ rejection_bytes (rejection_of rejection) }
{
    layout::put_rejection(fields::of_rejection(rejection), out);
}

#[tactic(auto, using(tool_result_spec::proofs::ApartLaws::told_apart))]
pub fn reply_into(reply: Option<ReplyIn>, out: &mut [u8; 56])
    ensures fields { out.new ≡ reply_fields_bytes (fields_of_reply reply) }
    ensures apart { ToldApart }
{
    layout::put_reply(fields::of_reply(reply), out);
}
