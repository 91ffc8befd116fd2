//! The emission of frames in spare buffers.

ghost use Rattle.std.specs.Prelude.{ℕ, ◌≡◌, ◌+◌, ◌-◌, ◌*◌, ◌/◌, ◌%◌, ◌<◌, ◌≤◌, ◌^◌, [], ◌∷◌, List, length, vec_len};
ghost use Rattle.std.specs.Prelude.{vec_capacity};
ghost use Rattle.brick_spec.specs.Stream.{StreamSegment, reassembly};
ghost use Rattle.brick_base.specs.Flow.{dir_view};
ghost use Rattle.packetize.specs.View.{template_view};
ghost use Rattle.window_stream.specs.StreamModel.{StandsFor};
ghost use Rattle.flow_spec.specs.Window.{windows_from, rest_of};
ghost use Rattle.window_stage.specs.Emission.{Emitted, emitted};

use batch_ops::Outlet;
use brick_base::Dir;
use packetize::{Template, emit};
use window_stream::Stream;

/// Passes the frame of some bytes of a stream, in a spare buffer. `at` is the position of the first one.
fn emit_bytes(
    base: Option<u32>,
    template: &Template,
    dir: Dir,
    key: (u64, u32),
    at: u64,
    bytes: &[u8],
    out: &mut Outlet,
)
    requires data { length bytes.now ≤ 1460 }
    requires room { vec_len out.old.passed < vec_capacity out.old.passed }
    requires spare { 0 < length out.old.spare.free }
    requires long { 54 + length bytes.now ≤ out.old.spare.bytes }
    ensures { Emitted 1 key.1 (λ xs. xs ≡ emitted base dir template.now key.0 key.1 at bytes.now ∷ []) out.old out.new }
{
    let seq = base.unwrap_or(0).wrapping_add((at % (1 << 32)) as u32);
    let buffer = out.spare.take();
    let packet = emit(template, seq, key.0, key.1, bytes, buffer);
    out.pass(dir, packet);
}

/// Passes a window of a stream that was not dropped, in a spare buffer.
fn emit_window(
    stream: &Stream,
    size: u32,
    template: &Template,
    dir: Dir,
    key: (u64, u32),
    window: u64,
    out: &mut Outlet,
)
    requires size { size ≡ stream.now.size }
    requires data { (64 ≤ size) × (size ≤ 1460) }
    requires fits { stream.now.ready < 2 ^ 64 }
    requires whole { (window + 1) * size ≤ stream.now.ready }
    requires there { stream.now.dropped ≤ window * size }
    requires room { vec_len out.old.passed < vec_capacity out.old.passed }
    requires spare { 0 < length out.old.spare.free }
    requires long { 54 + size ≤ out.old.spare.bytes }
    ensures { Emitted 1 key.1 (λ xs. (segments : List StreamSegment) → StandsFor stream.now segments →
        xs ≡ windows_from size (reassembly stream.now.reach segments) (dir_view dir)
        (template_view template.now) key.0 key.1 window 1) out.old out.new }
{
    let Some(bytes) = stream.window(window) else {
        // It is whole, and was not dropped.
        return;
    };
    emit_bytes(
        stream.base(),
        template,
        dir,
        key,
        window * u64::from(size),
        bytes,
        out,
    );
}

/// Passes the windows of a stream from the one at `from` up to that before `to`, in spare buffers, under the keys from
/// `(a, 1)` on.
pub(crate) fn emit_windows(
    stream: &Stream,
    size: u32,
    template: &Template,
    dir: Dir,
    a: u64,
    from: u64,
    to: u64,
    out: &mut Outlet,
)
    requires size { size ≡ stream.now.size }
    requires data { (64 ≤ size) × (size ≤ 1460) }
    requires order { from ≤ to }
    requires few { to - from < 2 ^ 32 }
    requires fits { stream.now.ready < 2 ^ 64 }
    requires whole { to * size ≤ stream.now.ready }
    requires there { stream.now.dropped ≤ from * size }
    requires room { vec_len out.old.passed + (to - from) ≤ vec_capacity out.old.passed }
    requires spare { to - from ≤ length out.old.spare.free }
    requires long { 54 + size ≤ out.old.spare.bytes }
    ensures { Emitted (to - from) 1 (λ xs. (segments : List StreamSegment) → StandsFor stream.now segments →
        xs ≡ windows_from size (reassembly stream.now.reach segments) (dir_view dir)
        (template_view template.now) a 1 from (to - from)) out.old out.new }
{
    let mut key = 0;
    'each: for window in from..to {
        key += 1;
        emit_window(stream, size, template, dir, (a, key), window, out);
    }
}

/// Passes what is left of a stream behind its last window, in a spare buffer, where that is not empty.
pub(crate) fn emit_rest(
    stream: &Stream,
    size: u32,
    template: &Template,
    dir: Dir,
    key: (u64, u32),
    out: &mut Outlet,
)
    requires size { size ≡ stream.now.size }
    requires data { (64 ≤ size) × (size ≤ 1460) }
    requires room { vec_len out.old.passed < vec_capacity out.old.passed }
    requires spare { 0 < length out.old.spare.free }
    requires long { 54 + size ≤ out.old.spare.bytes }
    ensures { Emitted 1 key.1 (λ xs. (segments : List StreamSegment) → StandsFor stream.now segments →
        xs ≡ rest_of size (reassembly stream.now.reach segments) (dir_view dir) key.0 key.1
        (template_view template.now)) out.old out.new }
{
    let bytes = stream.rest();
    if bytes.is_empty() {
        return;
    }
    let at = stream.ready() - bytes.len() as u64;
    emit_bytes(stream.base(), template, dir, key, at, bytes, out);
}
