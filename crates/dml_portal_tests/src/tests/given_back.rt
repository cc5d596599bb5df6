//! Memory that was lent to a portal, given back.
use super::claims::{holds, same};
use super::done;
use dml_engine::EngineOver;
use dml_image::Whole;
use dml_portal::{Portal, SettledOver};
use dml_types::{Job, Settings, law_of_loans};
use std::process::Abort;

#[test]
fn memory_in_one_piece_comes_back_from_a_portal(rt: HostRuntime) {
    let mut content = [0; 8192];
    let mut whole = Whole::new(&mut content);
    assert!(rt; whole.is_memory());
    let settings = Settings {
        staging: 65_536,
        chunk: 4096,
        workers: 4,
    };
    let Ok(engine) = EngineOver::new(rt.alloc(), whole.take(), settings) else {
        rt.panic("no memory");
    };
    let Ok((mut server, mut seats)) = Portal::open(rt.alloc(), engine, 1, 4) else {
        rt.panic("no memory");
    };
    let Some(mut seat) = seats.pop() else {
        rt.panic("no seat");
    };
    let fill = Job::fill(0x0807_0605_0403_0201, 4090, 12);
    holds(&rt, seat.try_submit(fill).is_ok());
    law_of_loans();
    holds(&rt, server.serve_round(&rt, rt.alloc()).is_ok());
    same(&rt, seat.poll(), Some(done(12)));
    let SettledOver { image, log } = server.into_settled();
    whole.put(image);
    drop(log);
    drop(seat);
    drop(whole);
    for (place, byte) in [(4089, 0), (4090, 1), (4096, 7), (4101, 4), (4102, 0)] {
        same(&rt, content[place], byte);
    }
}
