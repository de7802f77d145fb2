//! The laws of lines, commands and packets.
ghost use Rattle.std.specs.Prelude.{◌≡◌, ◌+◌, ◌^◌, ◌<◌, ◌++◌, ℕ, List, [], length};
ghost use Rattle.slink_wire.specs.declared.command.Command.{Command};
ghost use Rattle.slink_wire.specs.declared.request.Request.{Request};
ghost use Rattle.slink_wire.specs.Command.{IsCommand};
ghost use Rattle.slink_wire.specs.Lines.{lines_of};
ghost use Rattle.slink_wire.specs.Packet.{IsPacket, packet_bytes};
ghost use Rattle.slink_wire.specs.Request.{HasPlace, IsSpelled, request_line, requested};
ghost use Rattle.slink_wire.specs.Written.{AreLines, IsLine, SpellsPrefix, only_lines, written_bytes};
ghost use Rattle.slink_wire.specs.Taking.{AreCalls, Call, bytes_in, lines_in};

/// However a stream of command lines is cut into the pieces that are taken, its lines are reported, each once and in
/// order.
#[tactic(auto, using(crate::proofs::Calls::calls_yield, crate::proofs::Calls::calls_alike))]
pub fn any_pieces()
    ensures lines { (calls : List Call) → AreCalls [] calls → lines_in calls ≡ (lines_of (bytes_in calls)).lines }
    ensures alike { (a b : List Call) → AreCalls [] a → AreCalls [] b → bytes_in a ≡ bytes_in b
        → lines_in a ≡ lines_in b }
{}

/// Lines that are written, each with CR LF, are what the stream spells; a prefix of the stream spells a prefix of them.
/// Each line that any stream spells can be written so.
#[tactic(auto, using(crate::proofs::WrittenBack::whole_spelled, crate::proofs::WrittenBack::prefix_spelled, crate::proofs::Sound::spelled_lines))]
pub fn lines_read_back()
    ensures whole { (lines : List (List ℕ)) → AreLines lines → lines_of (written_bytes lines) ≡ only_lines lines }
    ensures prefix { (lines : List (List ℕ)) (stream rest : List ℕ) → AreLines lines
        → stream ++ rest ≡ written_bytes lines → SpellsPrefix stream lines }
    ensures lines { (stream : List ℕ) → AreLines (lines_of stream).lines }
{}

/// The line of a request stands in a stream as it is, and is its command.
#[tactic(auto, using(crate::proofs::RequestLines::line_of_request, crate::proofs::RequestLines::command_of_request))]
pub fn requests_are_lines()
    ensures line { (r : Request) → IsSpelled r → HasPlace r → IsLine (request_line r) }
    ensures command { (r : Request) → IsSpelled r → HasPlace r → IsCommand (request_line r) (requested r) }
{}

/// A line is one command.
#[tactic(auto, using(crate::proofs::Written::line_once))]
pub fn one_command()
    ensures { (line : List ℕ) (c d : Command) → IsCommand line c → IsCommand line d → c ≡ d }
{}

/// A packet has one number and one record, and is read back as it was written.
#[tactic(auto, using(crate::proofs::Packets::read_back, crate::proofs::Packets::packet_length))]
pub fn one_packet()
    ensures one { (packet : List ℕ) (n m : ℕ) (r s : List ℕ) → IsPacket packet n r → IsPacket packet m s
        → (n ≡ m) × (r ≡ s) }
    ensures reads_back { (n : ℕ) (r : List ℕ) → n < 2 ^ 24 → IsPacket (packet_bytes n r) n r }
    ensures size { (n : ℕ) (r : List ℕ) → length (packet_bytes n r) ≡ 8 + length r }
{}
