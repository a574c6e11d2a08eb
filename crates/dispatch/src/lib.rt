// A call that a line of a trace asks for, carried out on a whole channel.
//
// Promises: what `replied` gives for the call, and every byte of the lent frame. Leaves to others: reading the line
// (`commands`), a channel that is kept (`dispatch_in_place`), and printing the reply (`replay`).
#![tactic(auto)]

ghost use Rattle.std.specs.Prelude.{◌≡◌, length};
ghost use Rattle.channel.specs.Channel.{ticked};
ghost use Rattle.dispatch.specs.Calls.{call_for, carried_out_by};

use channel::state::{Channel, Reply};
use command_names::Command;

// A call with its argument: its bytes stand in front of the lent ones, and a frame goes into the lent frame. A `match`, since
// each call takes other arguments, which the command holds: closures would hide which call has which.
pub fn carry_out(ch: Channel, k: Command, bytes: &[u8], frame: &mut [u8]) -> Reply
    ensures { ticked result frame.new ≡ carried_out_by ch (call_for k bytes.now (length frame.old)) frame.old }
{
    match k {
        Command::NetworkRequest => calls::network_request(ch),
        Command::NetworkRelease => calls::network_release(ch),
        Command::PassiveStartUp => calls::passive_start_up(ch),
        Command::RepeatMessageRequest => calls::repeat_message_request(ch),
        Command::DisableCommunication => calls::disable_communication(ch),
        Command::EnableCommunication => calls::enable_communication(ch),
        Command::TxConfirmation(good) => calls::tx_confirmation(ch, good),
        Command::RxIndication(n) => reception::rx_indication(ch, slices::part(bytes, 0, n)),
        Command::ConfirmPnAvailability => calls::confirm_pn_availability(ch),
        Command::SetUserData(n) => inputs::set_user_data(ch, slices::part(bytes, 0, n)),
        Command::SetPnRequests(n) => inputs::set_pn_requests(ch, slices::part(bytes, 0, n)),
        Command::MainFunction(taken) => tick::main_function(ch, taken, frame),
    }
}
