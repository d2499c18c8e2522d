//! A peer on the same machine.
use crate::tests::links::incoming;
use crate::{Door, TcpDoor, send_all};
use std::io::{Read, Write};
use std::net::{OpenListener, Shutdown, TcpStream};
use std::test::Fail;

#[test]
fn a_peer_is_heard_and_answered(rt: HostRuntime) -> Result<(), Fail> {
    let mut door = TcpDoor::bind(&rt, "127.0.0.1:0");
    let address = match &door.listener {
        Some(listener) => listener.local_addr()?,
        None => panic!(rt; "no address is free"),
    };
    let mut peer = TcpStream::connect(&rt, address)?;
    peer.write_all(b"a first line")?;
    peer.shutdown(Shutdown::Write)?;
    let mut link = door.next()?;
    assert_eq!(rt;
        incoming(rt.alloc(), &mut link)?.as_slice(),
        b"a first line".as_slice()
    );
    send_all(&mut link, b"an answer")?;
    door.close(link);
    let mut answer = Vec::new(rt.alloc());
    peer.read_to_end(&mut answer)?;
    assert_eq!(rt; answer.as_slice(), b"an answer".as_slice());
    Ok(())
}

#[test]
fn a_door_without_an_address_gives_no_link(rt: HostRuntime) {
    let mut door = TcpDoor::bind(&rt, "127.0.0.1");
    assert!(rt; door.next().is_err());
    assert!(rt; door.next().is_err());
}
