// Follows one order to draw from its sixteen bytes to what is drawn, and says in plain words what takes place.
#![tactic(auto)]

mod scene;
mod story;

use scene::Scene;
use std::io;

/// 3 vertices, 1 copy, from vertex 0 and copy 0 on; the lowest byte of each number comes first.
const ORDER: [[u8; 4]; 4] = [[3, 0, 0, 0], [1, 0, 0, 0], [0; 4], [0; 4]];

/// The same with one vertex more than the bound bytes hold.
const LONGER: [[u8; 4]; 4] = [[4, 0, 0, 0], [1, 0, 0, 0], [0; 4], [0; 4]];

fn tell(rt: &HostRuntime, scene: &Scene) -> io::Result<()> {
    let order = ORDER.map(u32::from_le_bytes);
    let longer = LONGER.map(u32::from_le_bytes);
    story::tell_order(rt, ORDER.as_flattened(), &order)?;
    match scene.follow(&order) {
        Ok(followed) => story::tell_followed(rt, scene, &followed, &order)?,
        Err(refusal) => story::tell_refusal(rt, refusal)?,
    }
    println!(rt; "\n8. The same order with one vertex more")?;
    println!(rt; "All else stays as it was.")?;
    story::tell_numbers(rt, &longer)?;
    match scene.follow(&longer) {
        Ok(followed) => story::tell_verdict(rt, &followed, &longer),
        Err(refusal) => story::tell_refusal(rt, refusal),
    }
}

fn main(rt: HostRuntime) -> io::Result<()> {
    match Scene::new() {
        Ok(scene) => tell(&rt, &scene),
        Err(refusal) => story::tell_refusal(&rt, refusal),
    }
}
