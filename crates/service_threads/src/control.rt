//! What the control socket asks of a proxy.
use crate::proxy::ServiceProxy;
use control_socket::ControlHandler;
use metrics::MetricsSource;
use service_admission::ServiceState;
use service_files::{DaemonFault, ProxyFiles, read_config, read_users, resident_bytes};
use std::alloc::Global;
use std::io;
use std::io::ErrorKind;
use std::sync::Wait;
use std::time::Clock;

/// A proxy under control.
#[derive(Drop)]
pub(crate) struct Control<'a, R> {
    pub(crate) rt: &'a R,
    pub(crate) proxy: &'a ServiceProxy,
}

impl<'a, R: Wait + Clock + ProxyFiles> Control<'a, R> {
    /// Reads the configuration and its users anew; calls keep what they were opened with.
    ///
    /// # Errors
    ///
    /// Where it is not taken; then the one before stays.
    fn take_setup(&self) -> Result<(), DaemonFault> {
        let proxy = self.proxy;
        let own = proxy.paths.own;
        let alloc = proxy.transport.alloc;
        let text = read_config(self.rt, alloc, proxy.paths.config.as_str(), own)?;
        let users = read_users(self.rt, alloc, proxy.paths.users.as_deref())?;
        let taken = proxy
            .transport
            .service
            .reload(self.rt, text.as_slice(), users.as_deref());
        match taken {
            Ok(()) => Ok(()),
            Err(fault) => Err(fault.in_file(own)),
        }
    }

    /// The counters as they stand now, in the text form of Prometheus.
    ///
    /// # Errors
    ///
    /// Want of memory for the text.
    fn text(&self) -> io::Result<Vec<u8>> {
        let proxy = self.proxy;
        let resident = resident_bytes(self.rt, proxy.transport.alloc);
        let now = proxy.transport.millis(self.rt);
        Ok(proxy.transport.service.stats(self.rt, now, resident)?)
    }
}

impl<'a, R: Wait + Clock + ProxyFiles> ControlHandler for Control<'a, R> {
    fn stop(&self, seconds: u64) {
        self.proxy
            .transport
            .service
            .drain(self.proxy.transport.millis(self.rt), seconds);
    }

    fn reload(&self) -> Result<String<Global>, io::Error> {
        let alloc = self.proxy.transport.alloc;
        match self.take_setup() {
            Ok(()) => Ok(format!(in alloc; "taken\n")?),
            Err(fault) => Ok(format!(in alloc; "refused: {fault}\n")?),
        }
    }

    fn stats(&self) -> Result<String<Global>, io::Error> {
        match String::from_utf8(self.text()?) {
            Ok(text) => Ok(text),
            Err(_) => Err(io::Error::from(ErrorKind::InvalidData)),
        }
    }

    fn calls(&self, from: u64) -> Result<Vec<u8>, io::Error> {
        let proxy = self.proxy;
        let mut text = Vec::new(proxy.transport.alloc);
        let now = proxy.transport.millis(self.rt);
        let calls = proxy.transport.service.calls();
        calls.append_calls(self.rt, from, now, &mut text)?;
        Ok(text)
    }

    fn call(&self, number: u64) -> Result<Vec<u8>, io::Error> {
        let proxy = self.proxy;
        let mut text = Vec::new(proxy.transport.alloc);
        let now = proxy.transport.millis(self.rt);
        let calls = proxy.transport.service.calls();
        calls.append_call(self.rt, number, now, &mut text)?;
        Ok(text)
    }

    fn bindings(&self) -> Result<Vec<u8>, io::Error> {
        let proxy = self.proxy;
        let mut text = Vec::new(proxy.transport.alloc);
        let now = proxy.transport.millis(self.rt);
        let registry = &proxy.transport.service.users().registry;
        registry.append_bindings(self.rt, now, &mut text)?;
        Ok(text)
    }

    fn bindings_of(&self, user: &[u8]) -> Result<Vec<u8>, io::Error> {
        let proxy = self.proxy;
        let mut text = Vec::new(proxy.transport.alloc);
        let now = proxy.transport.millis(self.rt);
        let registry = &proxy.transport.service.users().registry;
        registry.append_bindings_of(self.rt, user, now, &mut text)?;
        Ok(text)
    }

    fn forget(&self, user: &[u8]) -> Result<Vec<u8>, io::Error> {
        let proxy = self.proxy;
        let mut text = Vec::new(proxy.transport.alloc);
        let users = proxy.transport.service.users();
        let keeping = users.kept_changes();
        users
            .registry
            .forget_user(self.rt, proxy.transport.alloc, keeping, user, &mut text)?;
        Ok(text)
    }

    fn refused(&self) -> Result<Vec<u8>, io::Error> {
        let proxy = self.proxy;
        let mut text = Vec::new(proxy.transport.alloc);
        let now = proxy.transport.millis(self.rt);
        let last_refused = &proxy.transport.service.users().last_refused;
        last_refused.append(self.rt, now, &mut text)?;
        Ok(text)
    }

    fn has_ended(&self) -> bool {
        self.proxy.transport.service.is_in(ServiceState::Ended)
    }
}

impl<'a, R: Wait + Clock + ProxyFiles> MetricsSource for Control<'a, R> {
    fn counters(&self) -> io::Result<Vec<u8>> {
        self.text()
    }

    fn has_ended(&self) -> bool {
        self.proxy.transport.service.is_in(ServiceState::Ended)
    }
}
