use super::scene::{
    ALIGNMENT, BOUND_BYTES, BUFFER_BYTES, LARGEST_WINDOW, MOST_BUFFERS, ORDER_BYTES, Scene,
    VERTEX_BYTES,
};
use command::args::DrawArgs;
use command::refusal::Refusal;
use entry::metadata::MetadataEntry;
use std::io;
use validation::follow::Followed;

pub fn tell_refusal(rt: &HostRuntime, refusal: Refusal) -> io::Result<()> {
    let number = refusal.number();
    println!(rt;
        "This was turned down, and nothing was changed. The reason has the number {number}."
    )
}

pub fn tell_numbers(rt: &HostRuntime, order: &[u32; 4]) -> io::Result<()> {
    let [vertices, copies, first, first_copy] = *order;
    println!(rt;
        "The order says: draw {vertices} vertices, in {copies} copy, from vertex {first} and copy {first_copy} on."
    )
}

pub fn tell_order(rt: &HostRuntime, bytes: &[u8], order: &[u32; 4]) -> io::Result<()> {
    println!(rt; "ONE ORDER TO DRAW, FROM ITS SIXTEEN BYTES TO WHAT IS DRAWN\n")?;
    println!(rt; "1. The order")?;
    println!(rt; "A graphics card draws triangles. The corner of a triangle is called a vertex.")?;
    println!(rt;
        "A buffer is a stretch of memory. It is a row of bytes, numbered from 0 on, and a byte is a number from 0 to 255."
    )?;
    println!(rt;
        "This buffer has {ORDER_BYTES} bytes. It holds one order to draw, and not a byte after it."
    )?;
    println!(rt; "The bytes are {bytes:?}.")?;
    println!(rt;
        "Each four bytes are one number. Their first byte counts ones, the next one counts 256s, and so on."
    )?;
    println!(rt; "The numbers are {order:?}.")?;
    tell_numbers(rt, order)?;
    println!(rt;
        "A copy is the same drawing once more. The card itself may have written these numbers, so they have to be checked."
    )
}

fn tell_bound(rt: &HostRuntime) -> io::Result<()> {
    println!(rt; "\n2. What is bound")?;
    println!(rt;
        "To bind memory is to say that the card reads its vertices there. A slot is a numbered place to bind it to."
    )?;
    println!(rt; "Slot 0 is bound to {BOUND_BYTES} bytes of another buffer, from byte 0 on.")?;
    println!(rt; "Each vertex takes {VERTEX_BYTES} of these bytes. Nothing is read for each copy.")
}

fn tell_limits(rt: &HostRuntime, followed: &Followed) -> io::Result<()> {
    let vertices = followed.limits.vertex_or_index_limit;
    let copies = followed.limits.instance_limit;
    println!(rt; "\n3. The limits")?;
    println!(rt;
        "The {BOUND_BYTES} bytes hold {vertices} vertices of {VERTEX_BYTES} bytes. So the limit for vertices is {vertices}."
    )?;
    println!(rt;
        "Copies have no limit here. The largest number that the program has stands for that: {copies}."
    )?;
    println!(rt; "The limits are noted now. What is bound later does not change them.")
}

fn tell_window(rt: &HostRuntime, followed: &Followed) -> io::Result<()> {
    let size = followed.binding_size;
    let start = followed.window.dynamic_offset;
    let offset = followed.window.offset;
    println!(rt; "\n4. The window")?;
    println!(rt; "The check sees a buffer only through a window, which is a part of the buffer.")?;
    println!(rt;
        "A window begins at a multiple of {ALIGNMENT} bytes, and has at most {LARGEST_WINDOW} bytes."
    )?;
    println!(rt;
        "Here it begins at byte {start} and has {size} bytes, which is all of the buffer."
    )?;
    println!(rt; "In the window the order begins at byte {offset}.")
}

fn tell_place(rt: &HostRuntime, scene: &Scene) -> io::Result<()> {
    let index = scene.place.index;
    let offset = scene.place.offset;
    let buffers = scene.buffers;
    println!(rt; "\n5. The place")?;
    println!(rt;
        "The check writes the order to a new place. The card draws from there, and never from the first buffer."
    )?;
    println!(rt;
        "For this there are up to {MOST_BUFFERS} buffers of {BUFFER_BYTES} bytes, and {buffers} of them is in use now."
    )?;
    println!(rt; "The place is in buffer {index}, at byte {offset}.")
}

fn tell_entry(rt: &HostRuntime, entry: &MetadataEntry) -> io::Result<()> {
    let words = <[u32; 4]>::from(*entry);
    let unpacked = entry.unpack();
    let limit = unpacked.vertex_or_index_limit;
    let copies = unpacked.instance_limit;
    let from = unpacked.src_offset;
    let to = unpacked.dst_offset;
    println!(rt; "\n6. The entry")?;
    println!(rt;
        "The entry is a note of four numbers that tells the check what to do: {words:?}."
    )?;
    println!(rt;
        "It says: read the order at byte {from} of the window, and write it at byte {to} of its new buffer."
    )?;
    println!(rt;
        "It says: the limit for vertices is {limit}, and the limit for copies is {copies}."
    )?;
    println!(rt;
        "No order can ask for more copies than {copies}, so this limit turns nothing away."
    )?;
    println!(rt;
        "It is too large for four bytes. So the last number has one part of it, and the second number the rest."
    )
}

/// The sums that the check makes, and what it writes.
pub fn tell_verdict(rt: &HostRuntime, followed: &Followed, order: &[u32; 4]) -> io::Result<()> {
    let [vertices, copies, first, first_copy] = *order;
    let args = DrawArgs {
        count: vertices,
        instances: copies,
        first,
        first_instance: first_copy,
    };
    let limit = followed.limits.vertex_or_index_limit;
    let last = args.last();
    let last_copy = args.last_instance();
    let drawn = followed.arguments.words();
    println!(rt; "Vertices: {first} + {vertices} = {last}, and the limit is {limit}.")?;
    println!(rt; "Copies: {first_copy} + {copies} = {last_copy}, and they have no limit here.")?;
    println!(rt;
        "The first copy is {first_copy}. It must be 0, unless the card can begin at others."
    )?;
    println!(rt; "The check writes {drawn:?}.")?;
    if drawn == order.as_slice() {
        println!(rt;
            "These are the numbers of the order. It keeps to its limits, and is drawn as it stands."
        )
    } else {
        println!(rt;
            "These are zeros: the order does not keep to its limits. So nothing is drawn, and no byte is read that is not bound."
        )
    }
}

/// What is settled of the order, step by step.
pub fn tell_followed(
    rt: &HostRuntime,
    scene: &Scene,
    followed: &Followed,
    order: &[u32; 4],
) -> io::Result<()> {
    tell_bound(rt)?;
    tell_limits(rt, followed)?;
    tell_window(rt, followed)?;
    tell_place(rt, scene)?;
    tell_entry(rt, &followed.entry)?;
    println!(rt; "\n7. The verdict")?;
    tell_verdict(rt, followed, order)
}
