//! The steps of a round that need no book.

use crate::opening::GatewaySockets;
use share_news::News;
use share_transit::Transit;
use share_uplink::Work;
use std::alloc::Global;
use std::io::Eprint;
use std::net::Net;
use std::time::{Clock, Instant};

impl GatewaySockets {
    /// Accepts the connections that wait at ports, for control lines and at the downlink. Returns whether more may be
    /// accepted at once.
    pub fn accept<R: Clock + Eprint>(
        &mut self,
        rt: &R,
        alloc: Global,
        news: &mut News,
        now: Instant,
    ) -> bool {
        let (registry, sources) = (self.poll.registry(), &mut self.sources);
        let ports = self
            .doorways
            .accept(rt, alloc, registry, sources, news, now);
        let controls = self
            .controls
            .accept(rt, alloc, registry, sources, news, now);
        let frames = match &mut self.far_end {
            None => false,
            Some(far_end) => far_end.accept(rt, alloc, registry, sources, news, now),
        };
        ports || controls || frames
    }

    /// Closes the connections and the ports of tenants that are over.
    pub fn close_over<R: Clock + Eprint>(&mut self, rt: &R, news: &mut News) {
        self.doorways
            .close_over(rt, self.poll.registry(), &mut self.sources, news);
    }

    /// Dials the uplink, and gives it what may go. Returns whether more may be done for it at once.
    pub fn send<R: Net + Clock + Eprint>(
        &mut self,
        rt: &R,
        transit: &mut Transit,
        news: &mut News,
        now: Instant,
    ) -> bool {
        let Some(uplink) = &mut self.uplink else {
            return false;
        };
        let dialled = uplink.tick(rt, self.poll.registry(), self.uplink_token, now);
        news.tell_uplink(rt, dialled, uplink);
        let work = uplink.work(transit, now);
        news.tell_uplink(rt, work, uplink);
        match work {
            Work::Busy | Work::Connected => true,
            Work::Idle | Work::Lost | Work::Unreachable => false,
        }
    }

    /// Gives the packets that came by the downlink to their tenants. Returns whether more may be given at once.
    pub fn receive<R: Clock + Eprint>(&mut self, rt: &R, news: &mut News) -> bool {
        match &mut self.far_end {
            None => false,
            Some(far_end) => far_end.take(rt, &mut self.doorways, &mut self.sources, news),
        }
    }

    /// Accepts web connections, as far as there is room. Returns the number below which all their keys are, which is 0
    /// without a web listener.
    pub fn accept_web<R: Clock + Eprint>(
        &mut self,
        rt: &R,
        alloc: Global,
        news: &mut News,
        now: Instant,
    ) -> usize {
        match &mut self.web {
            None => 0,
            Some(web) => {
                web.accept(
                    rt,
                    alloc,
                    self.poll.registry(),
                    &mut self.sources,
                    news,
                    now,
                );
                web.bound()
            }
        }
    }
}
