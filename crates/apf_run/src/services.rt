//! What each queue was given, and how that is written.

ghost use Rattle.std.specs.Prelude.{◌≡◌, slice_get, IfOk, OnOk};
ghost use Rattle.std.specs.Io.KnownBytes.{Appends};
ghost use Rattle.apf_run.specs.Services.{with_event, after_events, none_given, service_text, services_text, width_of};

use apf_files::Request;
use apf_model::Event;
use std::alloc::{AllocError, Global};
use std::io;
use std::io::Write;

/// What a queue was given.
#[derive(Clone, Copy, Debug, PartialEq, Eq)]
pub struct Service {
    /// Its number.
    pub queue: u32,
    /// The requests that entered it.
    pub entered: u64,
    /// The seats of those that were dispatched from it.
    pub service: u64,
}

/// This many queues, which were given nothing.
///
/// # Errors
///
/// `AllocError` if memory was refused.
pub fn no_services(alloc: Global, queues: u32) -> Result<Vec<Service>, AllocError>
    ensures { IfOk result (λ v. v.items ≡ none_given queues) }
{
    (0..queues)
        .map(|queue| Service {
            queue,
            entered: 0,
            service: 0,
        })
        .collect(alloc)
}

// The seats that a request takes.
fn width(requests: &[Request], request: u32) -> u64
    ensures { result ≡ width_of (slice_get requests.now request) }
{
    match requests.get(request as usize) {
        Some(request) => {
            let width: u32 = request.width;
            u64::from(width)
        }
        None => 0,
    }
}

// Counts one event more.
fn count(services: &mut [Service], requests: &[Request], event: Event)
    ensures { services.new ≡ with_event requests.now event services.old }
{
    match event {
        Event::Enter(_, queue) => {
            if (queue as usize) < services.len() {
                let service = services[queue as usize];
                services[queue as usize] = Service {
                    queue: service.queue,
                    entered: service.entered.saturating_add(1),
                    service: service.service,
                };
            }
        }
        Event::Dispatch(request, queue) => {
            if (queue as usize) < services.len() {
                let service = services[queue as usize];
                services[queue as usize] = Service {
                    queue: service.queue,
                    entered: service.entered,
                    service: service.service.saturating_add(width(requests, request)),
                };
            }
        }
        Event::Full(..) | Event::Strike(..) => {}
    }
}

/// Counts the events of a log, the oldest first.
pub fn count_all(services: &mut [Service], requests: &[Request], log: &[Event])
    ensures { services.new ≡ after_events requests.now log.now services.old }
{
    for event in log {
        count(services, requests, *event);
    }
}

// Writes the line of a queue, if a request entered it.
fn write_service<W: Write>(out: &mut W, service: Service) -> io::Result<()>
    ensures { OnOk result (Appends (W.contents out.old) (W.contents out.new) (service_text service)) }
{
    let queue = service.queue;
    let entered = service.entered;
    let service = service.service;
    if entered == 0 {
        return Ok(());
    }
    writeln!(out, "queue {queue} entered {entered} service {service}")
}

/// Writes a line for each queue that a request entered.
pub fn write_services<W: Write>(out: &mut W, services: &[Service]) -> io::Result<()>
    ensures { OnOk result (Appends (W.contents out.old) (W.contents out.new) (services_text services.now)) }
{
    for service in services {
        write_service(out, *service)?;
    }
    Ok(())
}
