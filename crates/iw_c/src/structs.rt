//! Calls with structs that begin with their size.
ghost use Rattle.std.specs.Prelude.{◌≡◌, ◌≢◌, ◌⊎◌, pos, None, Some, IfSome, IfNone};
ghost use Rattle.std.specs.Option.{option_map};
ghost use Rattle.iw_octets.specs.Stag.{stag_of};
ghost use Rattle.iw_endpoint.specs.Endpoint.{fresh, facts_at, told_at, options_at};
ghost use Rattle.iw_handle.specs.Refusals.{code_of, refusal_code};
ghost use Rattle.iw_handle.specs.Regions.{region_refusal};
ghost use Rattle.iw_handle.specs.Structs.{struct_refusal, options_refusal, region_told, peer_told_in};
ghost use Rattle.iw_handle.specs.State.{open_with, refusal_in, told_in, shown_in, stream_refusal, first_of};

use iw_handle::{Handle, Options, PeerTold, RegionTold, code, stag_of};
use std::alloc::Global;

/// Opens a closed handle with a new endpoint, by options.
#[unsafe(no_mangle)]
pub extern "C" fn iwarp_new_with(alloc: Global, handle: &mut Handle, options: &Options) -> i32
    ensures bad { IfSome (options_refusal options.now) (λ r. result ≡ pos (refusal_code r)) }
    ensures open { IfNone (options_refusal options.now) (IfSome handle.old.state (λ _. result ≡ pos 2)) }
    ensures why { IfNone (options_refusal options.now)
        (handle.old.state ≡ None → (result ≡ pos 0) ⊎ (result ≡ pos 3)) }
    ensures ok { result ≡ pos 0 → handle.new.state ≡ open_with fresh }
    ensures err { result ≢ pos 0 → handle.new.state ≡ handle.old.state }
{
    code(handle.open_as(alloc, options).err())
}

/// The facts of a region, valid or not, in a struct of at least 72 octets.
#[unsafe(no_mangle)]
pub extern "C" fn iwarp_region_facts(
    alloc: Global,
    handle: &mut Handle,
    stag: u32,
    region: &mut RegionTold,
) -> i32
    ensures code { result ≡ pos (code_of (refusal_in handle.old.state
        (λ e. first_of (struct_refusal 72 region.old.size) (region_refusal e (stag_of stag))))) }
    ensures ok { result ≡ pos 0 → Some region.new ≡ option_map (λ facts. region_told region.old.size facts)
        (shown_in handle.old.state (λ e. facts_at e (stag_of stag))) }
    ensures err { result ≢ pos 0 → region.new ≡ region.old }
    ensures same { handle.new.state ≡ handle.old.state }
{
    code(handle.region_facts(alloc, stag_of(stag), region).err())
}

/// What the peer told in its start-up frame, in a struct of at least 80 octets.
#[unsafe(no_mangle)]
pub extern "C" fn iwarp_peer_facts(
    alloc: Global,
    handle: &mut Handle,
    number: u32,
    peer: &mut PeerTold,
) -> i32
    ensures code { result ≡ pos (code_of (refusal_in handle.old.state
        (λ e. first_of (struct_refusal 80 peer.old.size) (stream_refusal e number)))) }
    ensures ok { result ≡ pos 0 → Some peer.new ≡ told_in handle.old.state
        (λ e. peer_told_in peer.old.size (options_at e number) (told_at e number)) }
    ensures err { result ≢ pos 0 → peer.new ≡ peer.old }
    ensures same { handle.new.state ≡ handle.old.state }
{
    code(handle.peer_facts(alloc, number, peer).err())
}
