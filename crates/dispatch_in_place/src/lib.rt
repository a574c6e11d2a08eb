// A call that a line of a trace asks for, carried out on a channel that is kept.
//
// Promises: what `replied` gives for the call, and every byte of the lent frame. Leaves to others: reading the line
// (`commands`) and printing the reply (`replay`).
#![tactic(auto)]

ghost use Rattle.std.specs.Prelude.{◌≡◌, length};
ghost use Rattle.channel.specs.Channel.{ticked};
ghost use Rattle.channel.specs.Told.{reply_of};
ghost use Rattle.dispatch.specs.Calls.{call_for, carried_out_by};

use answers::Refusal;
use channel::state::Told;
use command_names::Command;
use kept_channel::KeptChannel;

// Any call, by way of a copy of the channel. Only calls that are rare in a trace come here.
fn carry_out_whole(
    k: &mut KeptChannel,
    command: Command,
    bytes: &[u8],
    frame: &mut [u8],
) -> Result<Told, Refusal>
    ensures { ticked (reply_of k.new result) frame.new ≡ carried_out_by k.old (call_for command bytes.now (length frame.old)) frame.old }
{
    let r = dispatch::carry_out(k.channel, command, bytes, frame);
    k.channel = r.channel;
    r.told()
}

// Any call. The two that most lines of a trace ask for, a tick and a PDU, do not copy the channel. A `match`, since the command
// holds the arguments of its call; closures or a table of functions would have to be handed out.
pub fn carry_out_in_place(
    k: &mut KeptChannel,
    command: Command,
    bytes: &[u8],
    frame: &mut [u8],
) -> Result<Told, Refusal>
    ensures { ticked (reply_of k.new result) frame.new ≡ carried_out_by k.old (call_for command bytes.now (length frame.old)) frame.old }
{
    match command {
        Command::MainFunction(taken) => tick::main_function_in_place(k, taken, frame),
        Command::RxIndication(n) => {
            reception::rx_indication_in_place(k, slices::part(bytes, 0, n))
        }
        _ => carry_out_whole(k, command, bytes, frame),
    }
}
