//! Commands in words: the name, and each member that is there.

use qmp_codec::{
    Action, AddQcow2, AddRaw, Added, Amount, BackingRef, Backup, BitmapAdd, BitmapMerge,
    BitmapMode, BitmapName, BlockdevAdd, BlockdevCreate, Cache, Command, Commit, CompletionMode,
    CopyMode, CreateQcow2, Created, DeviceAdd, DeviceDriver, Discard, Driver, FileRef, ImageFormat,
    InlineFile, JobOptions, MergeSource, Mirror, NodeOptions, OnError, Sharing, Snapshot, Stream,
    Sync, Transaction, Version,
};
use row_text::Words;

fn on_error(policy: Option<OnError>) -> Option<&'static str> {
    match policy? {
        OnError::Report => Some("report"),
        OnError::Unknown => Some("?"),
    }
}

fn sync(sync: Sync) -> &'static str {
    match sync {
        Sync::Full => "full",
        Sync::Incremental => "incremental",
        Sync::Bitmap => "bitmap",
        Sync::Unknown => "?",
    }
}

fn copy_mode(mode: Option<CopyMode>) -> Option<&'static str> {
    match mode? {
        CopyMode::Background => Some("background"),
        CopyMode::Unknown => Some("?"),
    }
}

fn bitmap_mode(mode: Option<BitmapMode>) -> Option<&'static str> {
    match mode? {
        BitmapMode::OnSuccess => Some("on-success"),
        BitmapMode::Never => Some("never"),
        BitmapMode::Unknown => Some("?"),
    }
}

fn discard(discard: Option<Discard>) -> Option<&'static str> {
    match discard? {
        Discard::Ignore => Some("ignore"),
        Discard::Unmap => Some("unmap"),
        Discard::Unknown => Some("?"),
    }
}

fn completion_mode(mode: Option<CompletionMode>) -> Option<&'static str> {
    match mode? {
        CompletionMode::Individual => Some("individual"),
        CompletionMode::Grouped => Some("grouped"),
        CompletionMode::Unknown => Some("?"),
    }
}

fn image_format(format: Option<ImageFormat>) -> Option<&'static str> {
    match format? {
        ImageFormat::Raw => Some("raw"),
        ImageFormat::Qcow2 => Some("qcow2"),
        ImageFormat::Unknown => Some("?"),
    }
}

fn version(version: Option<Version>) -> Option<&'static str> {
    match version? {
        Version::V3 => Some("v3"),
        Version::Unknown => Some("?"),
    }
}

fn sharing(sharing: Option<Sharing>) -> Option<&'static str> {
    match sharing? {
        Sharing::On => Some("on"),
        Sharing::Off => Some("off"),
        Sharing::Unknown => Some("?"),
    }
}

fn device_driver(driver: DeviceDriver) -> &'static str {
    match driver {
        DeviceDriver::VirtioBlk => "virtio-blk",
        DeviceDriver::VirtioBlkPci => "virtio-blk-pci",
        DeviceDriver::ScsiHd => "scsi-hd",
        DeviceDriver::IdeHd => "ide-hd",
        DeviceDriver::Unknown => "?",
    }
}

fn driver(driver: Driver) -> &'static str {
    match driver {
        Driver::File => "file",
        Driver::Raw => "raw",
        Driver::Qcow2 => "qcow2",
        Driver::CopyOnRead => "copy-on-read",
        Driver::Unknown => "?",
    }
}

fn action_name(action: &Action) -> &'static str {
    match action {
        Action::Abort => "abort",
        Action::Snapshot(_) => "blockdev-snapshot",
        Action::Backup(_) => "blockdev-backup",
        Action::BitmapAdd(_) => "block-dirty-bitmap-add",
        Action::BitmapRemove(_) => "block-dirty-bitmap-remove",
        Action::BitmapClear(_) => "block-dirty-bitmap-clear",
        Action::BitmapEnable(_) => "block-dirty-bitmap-enable",
        Action::BitmapDisable(_) => "block-dirty-bitmap-disable",
        Action::BitmapMerge(_) => "block-dirty-bitmap-merge",
        Action::Unknown => "?",
    }
}

fn command_name(command: &Command) -> &'static str {
    match command {
        Command::Capabilities(_) => "qmp_capabilities",
        Command::BlockdevCreate(_) => "blockdev-create",
        Command::JobDismiss(_) => "job-dismiss",
        Command::BlockdevAdd(_) => "blockdev-add",
        Command::BlockdevDel(_) => "blockdev-del",
        Command::DeviceAdd(_) => "device_add",
        Command::DeviceDel(_) => "device_del",
        Command::BlockdevSnapshot(_) => "blockdev-snapshot",
        Command::Transaction(_) => "transaction",
        Command::BlockStream(_) => "block-stream",
        Command::BlockCommit(_) => "block-commit",
        Command::BlockdevMirror(_) => "blockdev-mirror",
        Command::BlockdevBackup(_) => "blockdev-backup",
        Command::BlockJobCancel(..) => "block-job-cancel",
        Command::BlockJobComplete(_) => "block-job-complete",
        Command::QueryBlockJobs => "query-block-jobs",
        Command::QueryNamedBlockNodes(_) => "query-named-block-nodes",
        Command::BitmapAdd(_) => "block-dirty-bitmap-add",
        Command::BitmapRemove(_) => "block-dirty-bitmap-remove",
        Command::BitmapClear(_) => "block-dirty-bitmap-clear",
        Command::BitmapEnable(_) => "block-dirty-bitmap-enable",
        Command::BitmapDisable(_) => "block-dirty-bitmap-disable",
        Command::BitmapMerge(_) => "block-dirty-bitmap-merge",
    }
}

fn member(out: &mut Words, name: &str, value: &str) {
    out.put(" ");
    out.put(name);
    out.put("=");
    out.put(value);
}

fn maybe_word(out: &mut Words, name: &str, value: Option<&str>) {
    match value {
        Some(word) => member(out, name, word),
        None => {}
    }
}

fn maybe_text(out: &mut Words, name: &str, value: &Option<String>) {
    match value {
        Some(text) => member(out, name, text.as_str()),
        None => {}
    }
}

fn maybe_flag(out: &mut Words, name: &str, value: Option<bool>) {
    match value {
        Some(true) => member(out, name, "true"),
        Some(false) => member(out, name, "false"),
        None => {}
    }
}

fn maybe_amount(out: &mut Words, name: &str, value: Option<Amount>) {
    match value {
        Some(Amount::Number(n)) => {
            member(out, name, "");
            out.number(n);
        }
        Some(Amount::Negative) => member(out, name, "negative"),
        None => {}
    }
}

fn put_texts(out: &mut Words, name: &str, texts: &Vec<String>) {
    member(out, name, "[");
    for text in texts {
        out.put(text.as_str());
        out.put(";");
    }
    out.put("]");
}

fn put_job_options(out: &mut Words, c: &JobOptions) {
    maybe_amount(out, "speed", c.speed);
    maybe_flag(out, "auto-finalize", c.auto_finalize);
    maybe_flag(out, "auto-dismiss", c.auto_dismiss);
}

fn put_stream(out: &mut Words, c: &Stream) {
    member(out, "job-id", c.job_id.as_str());
    member(out, "device", c.device.as_str());
    maybe_text(out, "base-node", &c.base_node);
    maybe_text(out, "backing-file", &c.backing_file);
    maybe_word(out, "on-error", on_error(c.on_error));
    put_job_options(out, &c.options);
}

fn put_commit(out: &mut Words, c: &Commit) {
    member(out, "job-id", c.job_id.as_str());
    member(out, "device", c.device.as_str());
    maybe_text(out, "base-node", &c.base_node);
    maybe_text(out, "top-node", &c.top_node);
    maybe_text(out, "backing-file", &c.backing_file);
    maybe_word(out, "on-error", on_error(c.on_error));
    put_job_options(out, &c.options);
}

fn put_mirror(out: &mut Words, c: &Mirror) {
    member(out, "job-id", c.job_id.as_str());
    member(out, "device", c.device.as_str());
    member(out, "target", c.target.as_str());
    member(out, "sync", sync(c.sync));
    maybe_word(out, "copy-mode", copy_mode(c.copy_mode));
    maybe_word(out, "on-source-error", on_error(c.on_source_error));
    maybe_word(out, "on-target-error", on_error(c.on_target_error));
    put_job_options(out, &c.options);
}

fn put_backup(out: &mut Words, c: &Backup) {
    member(out, "job-id", c.job_id.as_str());
    member(out, "device", c.device.as_str());
    member(out, "target", c.target.as_str());
    member(out, "sync", sync(c.sync));
    maybe_text(out, "bitmap", &c.bitmap);
    maybe_word(out, "bitmap-mode", bitmap_mode(c.bitmap_mode));
    maybe_word(out, "on-source-error", on_error(c.on_source_error));
    maybe_word(out, "on-target-error", on_error(c.on_target_error));
    put_job_options(out, &c.options);
}

fn put_cache(out: &mut Words, cache: Option<Cache>) {
    let Some(cache) = cache else {
        return;
    };
    member(out, "cache", "{");
    maybe_flag(out, "direct", cache.direct);
    maybe_flag(out, "no-flush", cache.no_flush);
    out.put("}");
}

fn put_node_options(out: &mut Words, c: &NodeOptions) {
    maybe_flag(out, "read-only", c.read_only);
    maybe_flag(out, "auto-read-only", c.auto_read_only);
    maybe_word(out, "discard", discard(c.discard));
    put_cache(out, c.cache);
}

fn put_inline_file(out: &mut Words, c: &InlineFile) {
    member(out, "driver", driver(c.driver));
    member(out, "filename", c.filename.as_str());
    maybe_text(out, "node-name", &c.node_name);
    put_node_options(out, &c.options);
}

fn put_file_ref(out: &mut Words, file: &FileRef) {
    match file {
        FileRef::Name(name) => member(out, "file", name.as_str()),
        FileRef::Inline(inline) => {
            member(out, "file", "{");
            put_inline_file(out, inline);
            out.put("}");
        }
    }
}

fn put_backing(out: &mut Words, backing: &Option<BackingRef>) {
    match backing {
        Some(BackingRef::Null) => out.put(" backing"),
        Some(BackingRef::Name(name)) => member(out, "backing", name.as_str()),
        None => {}
    }
}

fn put_add_raw(out: &mut Words, c: &AddRaw) {
    member(out, "driver", "raw");
    put_file_ref(out, &c.file);
    maybe_amount(out, "offset", c.offset);
    maybe_amount(out, "size", c.size);
}

fn put_add_qcow2(out: &mut Words, c: &AddQcow2) {
    member(out, "driver", "qcow2");
    put_file_ref(out, &c.file);
    put_backing(out, &c.backing);
}

fn put_added(out: &mut Words, added: &Added) {
    match added {
        Added::File(name) => {
            member(out, "driver", "file");
            member(out, "filename", name.as_str());
        }
        Added::Raw(c) => put_add_raw(out, c),
        Added::Qcow2(c) => put_add_qcow2(out, c),
        Added::CopyOnRead(name) => {
            member(out, "driver", "copy-on-read");
            member(out, "file", name.as_str());
        }
        Added::Unknown => member(out, "driver", "?"),
    }
}

fn put_blockdev_add(out: &mut Words, c: &BlockdevAdd) {
    member(out, "node-name", c.node_name.as_str());
    put_node_options(out, &c.options);
    put_added(out, &c.driver);
}

fn put_create_qcow2(out: &mut Words, c: &CreateQcow2) {
    member(out, "driver", "qcow2");
    member(out, "file", c.file.as_str());
    maybe_amount(out, "size", Some(c.size));
    maybe_text(out, "backing-file", &c.backing_file);
    maybe_word(out, "backing-fmt", image_format(c.backing_fmt));
    maybe_amount(out, "cluster-size", c.cluster_size);
    maybe_amount(out, "refcount-bits", c.refcount_bits);
    maybe_word(out, "version", version(c.version));
}

fn put_created(out: &mut Words, created: &Created) {
    match created {
        Created::File(c) => {
            member(out, "driver", "file");
            member(out, "filename", c.filename.as_str());
            maybe_amount(out, "size", Some(c.size));
        }
        Created::Qcow2(c) => put_create_qcow2(out, c),
        Created::Unknown => member(out, "driver", "?"),
    }
}

fn put_blockdev_create(out: &mut Words, c: &BlockdevCreate) {
    member(out, "job-id", c.job_id.as_str());
    put_created(out, &c.options);
}

fn put_snapshot(out: &mut Words, c: &Snapshot) {
    member(out, "node", c.node.as_str());
    member(out, "overlay", c.overlay.as_str());
}

fn put_device_add(out: &mut Words, c: &DeviceAdd) {
    member(out, "driver", device_driver(c.driver));
    member(out, "id", c.id.as_str());
    member(out, "drive", c.drive.as_str());
    maybe_word(out, "share-rw", sharing(c.share_rw));
    maybe_text(out, "bus", &c.bus);
    maybe_text(out, "addr", &c.addr);
    maybe_text(out, "serial", &c.serial);
    maybe_text(out, "write-cache", &c.write_cache);
    maybe_amount(out, "bootindex", c.bootindex);
}

fn put_bitmap_add(out: &mut Words, c: &BitmapAdd) {
    member(out, "node", c.node.as_str());
    member(out, "name", c.name.as_str());
    maybe_amount(out, "granularity", c.granularity);
    maybe_flag(out, "persistent", c.persistent);
    maybe_flag(out, "disabled", c.disabled);
}

fn put_bitmap_name(out: &mut Words, c: &BitmapName) {
    member(out, "node", c.node.as_str());
    member(out, "name", c.name.as_str());
}

fn put_source(out: &mut Words, source: &MergeSource) {
    match source {
        MergeSource::Name(name) => member(out, "name", name.as_str()),
        MergeSource::Of(bitmap) => put_bitmap_name(out, bitmap),
    }
}

fn put_bitmap_merge(out: &mut Words, c: &BitmapMerge) {
    member(out, "node", c.node.as_str());
    member(out, "target", c.target.as_str());
    member(out, "bitmaps", "[");
    for source in &c.bitmaps {
        put_source(out, source);
        out.put(";");
    }
    out.put("]");
}

fn put_action(out: &mut Words, action: &Action) {
    out.put(" ");
    out.put(action_name(action));
    match action {
        Action::Abort | Action::Unknown => {}
        Action::Snapshot(c) => put_snapshot(out, c),
        Action::Backup(c) => put_backup(out, c),
        Action::BitmapAdd(c) => put_bitmap_add(out, c),
        Action::BitmapRemove(c)
        | Action::BitmapClear(c)
        | Action::BitmapEnable(c)
        | Action::BitmapDisable(c) => put_bitmap_name(out, c),
        Action::BitmapMerge(c) => put_bitmap_merge(out, c),
    }
}

fn put_transaction(out: &mut Words, c: &Transaction) {
    member(out, "actions", "[");
    for action in &c.actions {
        put_action(out, action);
        out.put(";");
    }
    out.put("]");
    maybe_word(out, "completion-mode", completion_mode(c.completion_mode));
}

fn put_members(out: &mut Words, command: &Command) {
    match command {
        Command::Capabilities(Some(texts)) => put_texts(out, "enable", texts),
        Command::Capabilities(None) | Command::QueryBlockJobs => {}
        Command::BlockdevCreate(c) => put_blockdev_create(out, c),
        Command::JobDismiss(id) | Command::DeviceDel(id) => member(out, "id", id.as_str()),
        Command::BlockdevAdd(c) => put_blockdev_add(out, c),
        Command::BlockdevDel(name) => member(out, "node-name", name.as_str()),
        Command::DeviceAdd(c) => put_device_add(out, c),
        Command::BlockdevSnapshot(c) => put_snapshot(out, c),
        Command::Transaction(c) => put_transaction(out, c),
        Command::BlockStream(c) => put_stream(out, c),
        Command::BlockCommit(c) => put_commit(out, c),
        Command::BlockdevMirror(c) => put_mirror(out, c),
        Command::BlockdevBackup(c) => put_backup(out, c),
        Command::BlockJobCancel(job, force) => {
            member(out, "device", job.as_str());
            maybe_flag(out, "force", *force);
        }
        Command::BlockJobComplete(job) => member(out, "device", job.as_str()),
        Command::QueryNamedBlockNodes(flat) => maybe_flag(out, "flat", *flat),
        Command::BitmapAdd(c) => put_bitmap_add(out, c),
        Command::BitmapRemove(c)
        | Command::BitmapClear(c)
        | Command::BitmapEnable(c)
        | Command::BitmapDisable(c) => put_bitmap_name(out, c),
        Command::BitmapMerge(c) => put_bitmap_merge(out, c),
    }
}

/// Puts a command in words.
pub(crate) fn put_command(out: &mut Words, command: &Command) {
    out.put(command_name(command));
    put_members(out, command);
}
