// Those structs in lent bytes, all of which are stored: least significant byte first, and zero where no field lies.
ghost use Rattle.std.specs.Prelude.{◌≡◌};
ghost use Rattle.tool_result_spec.specs.Layout.{composed_bytes, acknowledged_bytes, range_bytes, rejection_bytes, options_bytes, information_bytes, reply_fields_bytes};

use tool_result_spec::{
    Acknowledged, ByteRange, Composed, InformationFields, OptionsFields, RejectionFields,
    ReplyFields,
};

pub fn put_composed(numbers: Composed, composed: &mut [u8; 16])
    ensures { composed.new ≡ composed_bytes numbers }
{
    *composed = [0; 16];
    composed[0..4].copy_from_slice(&numbers.refusal.to_le_bytes());
    composed[8..16].copy_from_slice(&numbers.length.to_le_bytes());
}

pub fn put_acknowledged(numbers: Acknowledged, acknowledged: &mut [u8; 8])
    ensures { acknowledged.new ≡ acknowledged_bytes numbers }
{
    let [r0, r1, r2, r3] = numbers.refusal.to_le_bytes();
    *acknowledged = [r0, r1, r2, r3, numbers.pending as u8, numbers.timeout, 0, 0];
}

fn range_bytes(range: ByteRange) -> [u8; 24]
    ensures { result ≡ range_bytes range }
{
    let mut bytes = [0; 24];
    bytes[0] = range.given as u8;
    bytes[8..16].copy_from_slice(&range.start.to_le_bytes());
    bytes[16..24].copy_from_slice(&range.length.to_le_bytes());
    bytes
}

pub fn put_rejection(rejection: RejectionFields, out: &mut [u8; 32])
    ensures { out.new ≡ rejection_bytes rejection }
{
    let [r0, r1, r2, r3] = rejection.refusal.to_le_bytes();
    let [low, high] = rejection.code.to_le_bytes();
    *out = [0; 32];
    out[0..8].copy_from_slice(&[r0, r1, r2, r3, low, high, 0, 0]);
    out[8..32].copy_from_slice(&range_bytes(rejection.further));
}

fn options_bytes(options: OptionsFields) -> [u8; 6]
    ensures { result ≡ options_bytes options }
{
    let [low, high] = options.commands.to_le_bytes();
    [
        low,
        high,
        options.write_lengths,
        options.highest_space,
        options.has_lowest_space as u8,
        options.lowest_space,
    ]
}

fn information_bytes(information: InformationFields) -> [u8; 12]
    ensures { result ≡ information_bytes information }
{
    let mut bytes = [0; 12];
    bytes[0..4].copy_from_slice(&information.highest_address.to_le_bytes());
    bytes[4..8].copy_from_slice(&information.lowest_address.to_le_bytes());
    bytes[8] = information.flags;
    bytes[9] = information.present as u8;
    bytes[10] = information.has_lowest_address as u8;
    bytes
}

pub fn put_reply(reply: ReplyFields, out: &mut [u8; 56])
    ensures { out.new ≡ reply_fields_bytes reply }
{
    *out = [0; 56];
    out[0..4].copy_from_slice(&reply.kind.to_le_bytes());
    out[4..8].copy_from_slice(&reply.address.to_le_bytes());
    out[8..10].copy_from_slice(&reply.code.to_le_bytes());
    out[10] = reply.space;
    out[11] = reply.form;
    out[12..18].copy_from_slice(&options_bytes(reply.options));
    out[20..32].copy_from_slice(&information_bytes(reply.information));
    out[32..56].copy_from_slice(&range_bytes(reply.bytes));
}
